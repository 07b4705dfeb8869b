// A pattern laid over a node of the subject tree under a crossing: the inputs that it finds there.
#![tactic(auto)]

ghost use Rattle.std.specs.Prelude.{◌≡◌, ◌<◌, ◌≤◌, take, MatchOption};
ghost use Rattle.sheets_rules.specs.Model.{Shape, size, pins_most};
ghost use Rattle.covers.specs.Crossing.{exchanged, crossing_limit};
ghost use Rattle.overlay.specs.Inside.Standing.{Extending, ExtentFound, DrawingStored, DrawingMeasured};
ghost use Rattle.overlay.specs.Inside.Promises.{pushed, waits, Popped, Passable, passed, Walkable, DrawingWalked};

use shapes_rules::Packed;
use sheets_rules::{Limits, PatternRow, Slots, TreeRecord};

// How many crossing numbers there are: five bits, the first the highest.
#[derive(Clone, Copy)]
pub struct Crossing {}

impl Crossing {
    pub const NUMBERS: u32 = 32;
}

// How far each node of a drawing reaches, in preorder: how many nodes stand under it, itself included, and 32 times how many of them are NANDs.
#[derive(Clone, Copy)]
pub struct Extents {
    pub words: [u8; Limits::PATTERN_NODES],
}

impl Extents {
    pub const NAND: usize = 32;

    // From a NAND to its first branch: a node and a NAND more.
    pub const FIRST: usize = Extents::NAND + 1;
}

// An input of a match as it is kept: the pin that it feeds, and the tree's node that it stands at.
#[derive(Clone, Copy)]
pub struct Input {
    pub pin: u8,
    pub node: u8,
}

// The inputs of a match in the order of the tree: the first `count` of an array, the rest of which is blank.
// The array and its count stand side by side: memory is fixed, and there is no heap.
#[derive(Clone, Copy)]
pub struct Inputs {
    pub count: u8,
    pub list: [Input; Slots::PINS],
}

impl Inputs {
    // No input yet.
    pub const NONE: Inputs = Inputs {
        count: 0,
        list: [Input { pin: 0, node: 0 }; Slots::PINS],
    };

    // One input more.
    pub fn push(&mut self, input: Input)
        requires { self.old.count < pins_most }
        ensures { self.new ≡ pushed self.old input }
    {
        self.list[usize::from(self.count)] = input;
        self.count += 1;
    }

    // The inputs that are there.
    pub fn as_slice(&self) -> &[Input]
        requires { self.now.count ≤ pins_most }
        ensures { result.now ≡ take self.now.count self.now.list }
    {
        &self.list[..usize::from(self.count)]
    }
}

// Where a walk stands in a drawing: at a spot, with the branches that wait to be laid, the first `depth` of an array, the next one last;
// and how many bits of the crossing it has used. A spot is a node's number in the drawing and 32 times how many NANDs come before it:
// one word, as the extents are, so that one addition passes a branch in both counts.
// The array and its count stand side by side: memory is fixed, and there is no heap.
#[derive(Clone, Copy)]
pub struct Left {
    pub spot: usize,
    pub depth: usize,
    pub waiting: [u8; Slots::PINS],
    pub used: usize,
}

impl Left {
    // At the drawing's root, where no branch waits.
    const ROOT: Left = Left {
        spot: 0,
        depth: 0,
        waiting: [0u8; Slots::PINS],
        used: 0,
    };

    // One branch more waits.
    fn push(&mut self, spot: usize)
        requires { (self.old.depth < pins_most) × (spot ≤ 255) }
        ensures { self.new ≡ waits self.old spot }
    {
        self.waiting[self.depth] = spot as u8;
        self.depth += 1;
    }

    // The branch that waits last, if one does.
    #[tactic(auto, unfolding(crate::specs::Inside::Promises::resumed))]
    fn pop(&mut self) -> Option<usize>
        requires { self.old.depth ≤ pins_most }
        ensures { MatchOption result (self.old.depth ≡ 0) (λ spot. Popped self.old self.new spot) }
    {
        if self.depth == 0 {
            return None;
        }
        self.depth -= 1;
        Some(usize::from(self.waiting[self.depth]))
    }

    // Past a gate: an inverter's branch is next; of a NAND's two the one that stands first under the crossing, and the other waits.
    fn pass_gate(&mut self, symbol: u32, extents: Extents, crossing: u32)
        requires { Passable self.old symbol extents.words × (crossing < crossing_limit) }
        ensures { self.new ≡ passed self.old symbol extents.words crossing }
    {
        if symbol == Packed::INVERTER {
            self.spot += 1;
            return;
        }
        let words = extents.words;
        let number = self.spot / Extents::NAND;
        let first = self.spot + Extents::FIRST;
        let second = first + usize::from(words[first % Extents::NAND]);
        self.used = self.used.max(number + 1);
        if is_exchanged(crossing, number) {
            self.spot = second;
            self.push(first);
        } else {
            self.spot = first;
            self.push(second);
        }
    }
}

// The extent of the node numbered k, from its symbol and the extents of the nodes after it.
fn extent_from(symbol: u32, words: &[u8; Limits::PATTERN_NODES], k: usize) -> usize
    requires { (s : Shape) × Extending symbol words.now k s }
    ensures { ExtentFound symbol words.now k result }
{
    if Packed::LEAF <= symbol {
        return 1;
    }
    let first = usize::from(words[k + 1]);
    if symbol == Packed::INVERTER {
        return 1 + first;
    }
    Extents::FIRST + first + usize::from(words[k + 1 + first % Extents::NAND])
}

// The extents of the drawing in a pattern's row, from the last node to the first.
pub fn measure(row: &[u32]) -> Extents
    requires { (d : Shape) × (DrawingStored row.now d × (size d ≤ 16)) }
    ensures { DrawingMeasured row.now result }
{
    let mut words = [0u8; Limits::PATTERN_NODES];
    for k in (0..row[PatternRow::SIZE] as usize).rev() {
        words[k] = extent_from(row[PatternRow::SYMBOLS + k], &words, k) as u8;
    }
    Extents { words }
}

// Whether a crossing exchanges the inputs of the NAND with a number.
#[tactic(auto, unfolding(covers::specs::Crossing::exchanged))]
fn is_exchanged(crossing: u32, number: usize) -> bool
    requires { (crossing < crossing_limit) × (number ≤ 4) }
    ensures { result ≡ exchanged crossing number }
{
    (crossing >> (4 - number)) % 2 == 1
}

// Walks a pattern, redrawn by a crossing, and the tree's nodes from n on together. A pattern's leaf notes its pin and the tree's node, and
// skips all that stands under the node; elsewhere the two symbols must be equal. Answers the inputs of the match or, if there is none, how
// many bits of the crossing tell so.
pub fn walk(
    row: &[u32],
    extents: Extents,
    crossing: u32,
    tree: &TreeRecord,
    n: usize,
) -> Result<Inputs, usize>
    requires { (crossing < crossing_limit) × ((d : Shape) × ((s : Shape) × Walkable row.now extents.words tree.now.symbols tree.now.sizes n d s)) }
    ensures { DrawingWalked row.now extents.words crossing tree.now.symbols tree.now.sizes n result }
{
    let mut inputs = Inputs::NONE;
    let mut left = Left::ROOT;
    let mut at = n;
    // The pattern says where to go next and when to stop: there is nothing to count or to iterate over.
    loop {
        let symbol = row[PatternRow::SYMBOLS + left.spot % Extents::NAND];
        if symbol < Packed::LEAF {
            if tree.symbols[at] != symbol {
                return Err(left.used);
            }
            at += 1;
            left.pass_gate(symbol, extents, crossing);
        } else {
            inputs.push(Input {
                pin: (symbol - Packed::LEAF) as u8,
                node: at as u8,
            });
            at += usize::from(tree.sizes[at]);
            let Some(spot) = left.pop() else {
                return Ok(inputs);
            };
            left.spot = spot;
        }
    }
}
