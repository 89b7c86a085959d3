// Gates as clauses, circuits as gates, and the operators' gates on words of any width 2 ^ d (document 02, Six). Definitions and
// laws only, no functions.
#![tactic(auto)]
