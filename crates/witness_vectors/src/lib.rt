// Cases of the witness vectors, computed by the definitions. No code.
#![tactic(auto)]
