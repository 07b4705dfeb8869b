// Every node's curves, filled from the highest number down.
#![tactic(auto)]

ghost use Rattle.std.specs.Prelude.{◌≡◌, ◌≤◌, length};
ghost use Rattle.sheets_rules.specs.Model.{Shape, Library, Tree};
ghost use Rattle.matching.specs.Inside.Found.{match_most};
ghost use Rattle.filling.specs.Inside.Promises.{NodeReady, NodeFilled, FillReady, FillsNode, Exceeds, FillStart, FillsTree};

use curves::{Matches, Target, Words};
use matching::Hit;
use shapes_rules::Packed;
use sheets_rules::{Bins, Slots, TreeRecord};

// A node, the loads considered there, and how many trade-offs it may have.
#[derive(Clone, Copy)]
pub struct Turn {
    pub node: usize,
    pub bins: Bins,
    pub most: usize,
}

// How many points a node has under each load considered there; one more than it may have stands for any more.
#[derive(Clone, Copy)]
pub struct Counts {
    pub points: [u8; Slots::BINS],
}

// The curves of a node under its loads, from the last one down. `kept` is room for a word of each match.
fn fill_node(
    matches: &Matches<'_>,
    symbols: &[u32],
    work: &mut [u64],
    kept: &mut [u64],
    turn: Turn,
) -> Counts
    requires ready { NodeReady symbols.now work.old matches.now.rows.now matches.now.hits.now turn }
    requires room { length matches.now.hits.now ≤ length kept.old }
    ensures { NodeFilled symbols.now work.old matches.now.rows.now matches.now.hits.now turn work.new result }
{
    let mut points = [0; Slots::BINS];
    for b in (0..turn.bins.count).rev() {
        let target = Target {
            at: Words::BINS * turn.node + b,
            load: u32::from(turn.bins.loads[b]),
            most: turn.most,
        };
        points[b] = matches.curve(symbols, work, kept, target) as u8;
    }
    Counts { points }
}

// The curves of a node: a leaf has none.
fn fill_at(
    rows: &[u32],
    tree: &TreeRecord,
    turn: Turn,
    found: &mut [Hit],
    work: &mut [u64],
    kept: &mut [u64],
) -> Counts
    requires ready { (l : Library) × ((t : Tree) × ((s : Shape) × FillReady l t rows.now tree.now.symbols tree.now.sizes turn (length found.old) work.old s)) }
    requires room { match_most ≤ length kept.old }
    ensures { FillsNode rows.now tree.now.symbols tree.now.sizes turn (length found.old) work.old work.new result }
{
    let symbols = &tree.symbols;
    if Packed::LEAF <= symbols[turn.node] {
        return Counts {
            points: [0; Slots::BINS],
        };
    }
    let count = matching::find_matches(rows, tree, turn.node, found);
    let matches = Matches {
        rows,
        hits: &found[..count],
    };
    fill_node(&matches, symbols, work, kept, turn)
}

// Whether a node has more points under some load than it may have.
fn too_many(counts: Counts, turn: Turn) -> bool
    requires { turn.bins.count ≤ 4 }
    ensures { Exceeds turn result counts }
{
    for points in &counts.points[..turn.bins.count] {
        if turn.most < usize::from(*points) {
            return true;
        }
    }
    false
}

// The curves of every node below the root under every load bin, then the root's under the root load; or the highest-numbered node that has too many
// points under some load.
pub fn fill(
    rows: &[u32],
    bins: Bins,
    tree: &TreeRecord,
    most: usize,
    found: &mut [Hit],
    work: &mut [u64],
    kept: &mut [u64],
) -> Result<(), usize>
    requires start { (l : Library) × ((t : Tree) × FillStart l t rows.now bins tree.now most work.old) }
    requires room { (length found.old ≡ match_most) × (match_most ≤ length kept.old) }
    ensures { FillsTree rows.now bins tree.now most work.old work.new result }
{
    for node in (1..tree.count).rev() {
        let turn = Turn { node, bins, most };
        let counts = fill_at(rows, tree, turn, found, work, kept);
        if too_many(counts, turn) {
            return Err(node);
        }
    }
    let bins = Bins {
        count: 1,
        loads: [tree.load, 0, 0, 0],
    };
    let root = Turn {
        node: 0,
        bins,
        most,
    };
    let counts = fill_at(rows, tree, root, found, work, kept);
    if too_many(counts, root) {
        return Err(0);
    }
    Ok(())
}
