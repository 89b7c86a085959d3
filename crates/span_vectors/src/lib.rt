// Cases of the span vectors, computed by the definitions. No code.
#![tactic(auto)]
