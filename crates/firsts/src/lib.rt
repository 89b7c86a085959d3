// The first reading that reaches a goal (document 02, "Seven"): its definition, the theorems that say that this is the full specification, and the laws by
// which a search goes from one box of readings to smaller ones. No functions.
#![tactic(auto)]
