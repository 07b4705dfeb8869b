// Parts made of several trees: the sheet, the links, the whole outcome, and what it is worth among all legal covers: definitions and
// theorems, with no code.
#![tactic(auto)]
