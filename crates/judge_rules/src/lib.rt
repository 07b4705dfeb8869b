// What the judge of covers answers, and what its answers are worth among all legal covers: a type, definitions and theorems, with no code.

#![tactic(auto)]

// The area and the arrival of an accepted cover.
#[derive(Clone, Copy)]
pub struct Figures {
    pub area: u32,
    pub arrival: u32,
}
