// What map, list and the part operation reply, and what that is worth: definitions and theorems, with no code.
#![tactic(auto)]
