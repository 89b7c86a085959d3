// Document 01's marked cases and its printed case, computed by the definitions. No code.
#![tactic(auto)]
