// What a drawing computes, the function sheet, and what its judge answers: definitions and theorems alone, and no code.
#![tactic(auto)]
