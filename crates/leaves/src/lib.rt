// A leaf of the subject tree: when it arrives under a load, and the same leaf with another arrival. Its two numbers are taken apart here and nowhere else.
#![tactic(auto)]

ghost use Rattle.std.specs.Prelude.{◌≡◌, ◌+◌, ◌-◌, ◌<◌, ◌≤◌};
ghost use Rattle.shapes_rules.specs.Shape.{leaf_symbol};
ghost use Rattle.covers.specs.Cover.{leaf_arrival};
ghost use Rattle.covers.specs.Inside.Curve.{base};
ghost use Rattle.leaves.specs.Inside.Leaf.{leaf_of, symbol_limit};

use shapes_rules::Packed;

// When a leaf arrives under the load that it drives.
#[tactic(auto, unfolding(covers::specs::Cover::leaf_arrival, crate::specs::Inside::Leaf::leaf_of))]
pub fn leaf_arrival(symbol: u32, load: u32) -> u64
    requires { (2 ≤ symbol) × (symbol ≤ symbol_limit) × (load ≤ 255) }
    ensures { (result ≡ leaf_arrival (leaf_of symbol) load) × (result < base) }
{
    let packed = symbol - Packed::LEAF;
    u64::from(packed % Packed::DRIVE + packed / Packed::DRIVE * load)
}

// The symbol of a leaf with another arrival and the same drive.
#[tactic(auto, unfolding(crate::specs::Inside::Leaf::leaf_of))]
pub fn with_arrival(symbol: u32, arrival: u32) -> u32
    requires { (2 ≤ symbol) × (symbol ≤ symbol_limit) × (arrival ≤ 1000000) }
    ensures { result ≡ leaf_symbol (record { number = arrival; drive = (leaf_of symbol).drive }) }
{
    let drive = (symbol - Packed::LEAF) / Packed::DRIVE;
    Packed::LEAF + (drive * Packed::DRIVE + arrival)
}
