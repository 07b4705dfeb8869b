// The bill of an accepted cover, its text and what it is worth: definitions and theorems, with no code.
#![tactic(auto)]
