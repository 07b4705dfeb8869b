// Shapes of inverters and NANDs: the types that their definitions speak of.

// What differs between patterns and trees: the width of a leaf's number and the greatest that is sound, the most nodes, and whether
// it is a pattern, which opens with a gate and has no pin twice and no driven leaf.
#![tactic(auto)]

#[derive(Clone, Copy)]
pub struct Rules {
    pub width: usize,
    pub most: u32,
    pub nodes: usize,
    // A Bool, since definitions that are believed ask it so (`code_verdict`, `leaf_verdict`).
    pub pattern: bool,
}

impl Rules {
    // The most nodes that a shape can have.
    pub const NODES: usize = 64;
}

// What stands for a node: an inverter, a NAND, or a leaf's symbol from LEAF on, which has the leaf's number and DRIVE times its drive.
#[derive(Clone, Copy)]
pub struct Packed {}

impl Packed {
    pub const INVERTER: u32 = 0;

    pub const NAND: u32 = 1;

    pub const LEAF: u32 = 2;

    pub const DRIVE: u32 = 1048576;
}
