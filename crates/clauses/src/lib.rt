// The clauses of a table and a goal (document 02, Six): definitions, what is computed of them, and laws. No functions.
#![tactic(auto)]
