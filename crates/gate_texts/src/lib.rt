// The text that `gates` writes of packed gates is the text of their clauses, and short. Proofs only, no code.
#![tactic(auto)]
