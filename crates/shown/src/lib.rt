// Theorems about the witnesses of document 02's "Seven": the first reading is one, no earlier one is, and where there is none no reading
// and no run comes to the goal. No functions.
#![tactic(auto)]
