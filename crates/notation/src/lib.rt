// How the definitions write a condition, a named value and a test of many (specs/Notation.antt), and the laws by
// which a proof follows them (proofs/Follow.antt, proofs/Every.antt). No code.
#![tactic(auto)]
