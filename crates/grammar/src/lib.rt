// Theorems: what the grammar of DIMACS reads from the text of document 02's request Six is the clauses, and nothing else. No
// functions.
#![tactic(auto)]
