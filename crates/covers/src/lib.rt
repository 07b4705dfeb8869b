// What a legal cover is, what its trade-offs are and which cover is handed over: definitions and theorems, with no code.
#![tactic(auto)]
