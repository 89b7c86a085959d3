// Well-formed tables, on which the code's search for equal terms finds what document 01's finds, and the logic of the
// steps that keep them so. Proofs only, no code.
#![tactic(auto)]
