// The core: what map and list find for a sound library and a sound tree, as decoded. Every curve is filled; then the cover is chosen, or
// the root's trade-offs are counted. What is found is handed back, and nothing is written but the work area.
#![tactic(auto)]

ghost use Rattle.std.specs.Prelude.{◌≡◌, map, ◌≤◌, length, take};
ghost use Rattle.sheets_rules.specs.Model.{Library, Tree};
ghost use Rattle.sheets_rules.specs.declared.LibraryRecord.{LibraryRecord};
ghost use Rattle.covers.specs.Inside.Curve.{point_of};
ghost use Rattle.leaves.specs.Inside.Leaf.{symbol_limit};
ghost use Rattle.matching.specs.Inside.Found.{match_most};
ghost use Rattle.curves.specs.Inside.Words.{stored};
ghost use Rattle.map_core.specs.Inside.Promises.{rows_of, Started, Curved, Fills, MapsLeaf, MapsCurved, MapsTree, ListsCurved, ListsTree};

use choosing::Goal;
use curves::Curves;
use matching::Hit;
use result_sheets::CoverRecord;
use shapes_rules::Packed;
use sheets_rules::{LibraryRecord, Limits, PatternRow, Reason, Refusal, TreeRecord};

// No cover is in time, or there is none.
const NO_COVER: Refusal = Refusal {
    item: 0,
    reason: Reason::NoCover,
    place: 0,
};

// The rows of a library that are filled.
#[tactic(auto, using(sheets_rules::proofs::Stored::few_rows))]
fn rows(library: &LibraryRecord) -> &[u32]
    requires { library.now.total ≤ 128 }
    ensures { result.now ≡ rows_of library.now }
{
    &library.rows[..PatternRow::WORDS * library.total]
}

// The curves of every node, where none has too many trade-offs. A word is kept for each match of the table.
#[tactic(auto, using(crate::proofs::Core::fill_start))]
fn fill(
    library: &LibraryRecord,
    tree: &TreeRecord,
    most: usize,
    found: &mut [Hit],
    work: &mut [u64],
) -> Result<(), Refusal>
    requires started { (l : Library) × ((t : Tree) × Started most l t library.now tree.now work.old) }
    requires room { length found.old ≡ match_most }
    ensures { Fills most library.now tree.now work.old work.new result }
{
    let mut kept = [0u64; Hit::MATCHES];
    filling::fill(
        rows(library),
        library.bins,
        tree,
        most,
        found,
        work,
        &mut kept,
    )
    .map_err(|place| Refusal {
        item: 0,
        reason: Reason::Overfull,
        place,
    })
}

// A leaf's own cover, which has no match, if it arrives in time.
fn map_leaf(symbol: u32, load: u32, time: u32) -> Result<CoverRecord, Refusal>
    requires { (2 ≤ symbol) × (symbol ≤ symbol_limit) × (load ≤ 255) }
    ensures { MapsLeaf symbol load time result }
{
    let arrival = leaves::leaf_arrival(symbol, load) as u32;
    if time < arrival {
        return Err(NO_COVER);
    }
    Ok(CoverRecord::bare(0, arrival))
}

// The root's cover under its required time, from the curves.
#[tactic(auto, using(crate::proofs::Root::leaf_small))]
fn map_root(
    library: &LibraryRecord,
    tree: &TreeRecord,
    most: usize,
    found: &mut [Hit],
    work: &[u64],
) -> Result<CoverRecord, Refusal>
    requires curved { (l : Library) × ((t : Tree) × Curved most l t library.now tree.now work.now) }
    requires room { length found.old ≡ match_most }
    ensures { MapsCurved most library.now tree.now work.now result }
{
    let load = u32::from(tree.load);
    let time = tree.required;
    let symbol = tree.symbols[0];
    if Packed::LEAF <= symbol {
        return map_leaf(symbol, load, time);
    }
    let curves = Curves { work, most };
    let w = curves.look_up(0, u64::from(time) + 1).ok_or(NO_COVER)?;
    let goal = Goal {
        node: 0,
        load,
        bin: 0,
        time,
    };
    let mut cover = CoverRecord::bare((w / Limits::TIMES) as u32, (w % Limits::TIMES) as u32);
    choosing::choose(rows(library), tree, found, &curves, goal, &mut cover);
    Ok(cover)
}

// The cover that map hands over, for a sound library and a sound tree as decoded, where a node may have `most` trade-offs under a load, in
// a work area of zeros.
// Put in place where it is called: as a call of its own it made its table of hits zero twice.
#[tactic(auto, using(crate::proofs::Core::map_overfull))]
#[inline(always)]
pub fn map_tree(
    library: &LibraryRecord,
    tree: &TreeRecord,
    most: usize,
    work: &mut [u64],
) -> Result<CoverRecord, Refusal>
    requires { (l : Library) × ((t : Tree) × Started most l t library.now tree.now work.old) }
    ensures { MapsTree most library.now tree.now work.old result }
{
    let mut found = [Hit::NONE; Hit::MATCHES];
    fill(library, tree, most, &mut found, work)?;
    map_root(library, tree, most, &mut found, work)
}

// How many points a curve has: its words up to a 0.
fn count_points(curve: &[u64]) -> usize
    ensures { (result ≤ length curve.now) × (stored curve.now ≡ map point_of (take result curve.now)) }
{
    curve.iter().position(|w| *w == 0).unwrap_or(curve.len())
}

// How many trade-offs the root has, from its curve. A leaf has one, of no area, which is put in the curve's place.
#[tactic(auto, using(crate::proofs::Root::leaf_small))]
fn list_root(tree: &TreeRecord, most: usize, work: &mut [u64]) -> Result<usize, Refusal>
    requires { (l : Library) × ((t : Tree) × ((library : LibraryRecord) × Curved most l t library tree.now work.old)) }
    ensures { ListsCurved most tree.now work.old work.new result }
{
    let symbol = tree.symbols[0];
    if Packed::LEAF <= symbol {
        work[0] = leaves::leaf_arrival(symbol, u32::from(tree.load));
        return Ok(1);
    }
    let count = count_points(&work[..most + 1]);
    if count == 0 {
        return Err(NO_COVER);
    }
    Ok(count)
}

// How many trade-offs the root has, for a sound library and a sound tree as decoded, in a work area of zeros: their points are its first
// words then, the latest first. The required time does not count.
pub fn list_tree(
    library: &LibraryRecord,
    tree: &TreeRecord,
    most: usize,
    work: &mut [u64],
) -> Result<usize, Refusal>
    requires { (l : Library) × ((t : Tree) × Started most l t library.now tree.now work.old) }
    ensures { ListsTree most library.now tree.now work.old work.new result }
{
    let mut found = [Hit::NONE; Hit::MATCHES];
    fill(library, tree, most, &mut found, work)?;
    list_root(tree, most, work)
}
