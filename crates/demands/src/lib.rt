// The demands as theorems about the operations' own definitions. Proofs only, no code.
#![tactic(auto)]
