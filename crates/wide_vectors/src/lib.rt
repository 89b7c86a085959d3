// The case of tests/vectors that takes longest to compute by the definitions, in a crate of its own so that it is checked
// beside the others. No code.
#![tactic(auto)]
