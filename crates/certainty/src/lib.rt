// What document 02's request Two promises of its reports, as theorems about the operation's own definition, and that the
// answers of request Four tell the readings. Proofs only, no code.
#![tactic(auto)]
