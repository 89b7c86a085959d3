// Cases of tests/vectors, computed by the definitions. No code.
#![tactic(auto)]
