// The depth that an accepted rule reports is the smallest allowance that gives its result. Proofs only, no code.
#![tactic(auto)]
