// The bindings in scope at the records of a rule, and what holds of them in every rule that 4 to 6 take. Proofs only, no code.
#![tactic(auto)]
