// The text of document 02's request Six, DIMACS CNF, and what writing it answers: definitions and their bounds. No functions.
#![tactic(auto)]
