// What every call of the reducer does, by definition, with worked books and corner cases computed by it. No code stands
// here: specs/ has the definitions and the tables, a file each, and proofs/ that every line of a table holds.
#![tactic(auto)]
