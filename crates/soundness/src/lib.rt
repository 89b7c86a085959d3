// Reading the result of an evaluation gives what the concrete run gives; an evaluation keeps a table well formed, and
// gives the same with the code's search for equal terms as with document 01's. Proofs only, no code.
#![tactic(auto)]
