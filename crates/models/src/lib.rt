// Theorems: the clauses of a table and a goal can be satisfied exactly where a reading reaches the goal, and the input variables
// of whatever satisfies them are such a reading (document 02, Six). No functions.
#![tactic(auto)]
