// The judge of covers that others hand in: the three sheets are read, the listed matches walked from the front, and the stated figures compared.
#![tactic(auto)]

ghost use Rattle.std.specs.Prelude.{◌≡◌, ℕ, ◌+◌, ◌<◌, ◌≤◌, length, MatchOption};
ghost use Rattle.sheets_rules.specs.Model.{Shape, Library, Pattern, Tree};
ghost use Rattle.sheets_rules.specs.Report.{tree_said};
ghost use Rattle.covers.specs.Match.{Match};
ghost use Rattle.covers.specs.Inside.Curve.{base};
ghost use Rattle.leaves.specs.Inside.Leaf.{symbol_limit};
ghost use Rattle.overlay.specs.Inside.Promises.{LibraryStored, SheetsStored};
ghost use Rattle.judge_rules.specs.Walk.{Walk};
ghost use Rattle.judge_rules.specs.Public.{of_cover_judged, Judges};
ghost use Rattle.judge.specs.Inside.Promises.{arrived, pushed, Popped, Reached, Entering, InputsReached, CrossingTold, Taking, MatchTaken, Stepping, StepTaken, Judging, CoverWalked, RecordJudged, SheetJudged, TreeJudged, Fitting};

use judge_rules::Figures;
use overlay::{Crossing, Extents, Inputs};
use result_sheets::{CoverRecord, MatchRecord};
use shapes_rules::Packed;
use sheets_rules::{LibraryRecord, Limits, PatternRow, Reason, Refusal, TreeRecord};

// An inverter or NAND that is still to be covered: its node, the load that it is to drive, and the delay from it to the root.
#[derive(Clone, Copy)]
pub struct Waiting {
    pub node: u8,
    pub load: u8,
    pub delay: u32,
}

// How far a walk has come: the area of the matches and the latest arrival, at the root, of the leaves so far; and what is still to be
// covered: the first `count` of an array, the lowest node last.
// The array and its count stand side by side: memory is fixed, and there is no heap.
#[derive(Clone, Copy)]
pub struct WalkRecord {
    pub area: u32,
    pub arrival: u32,
    pub count: usize,
    pub waiting: [Waiting; Limits::TREE_NODES],
}

impl WalkRecord {
    // Nothing is reached yet.
    const BEGIN: WalkRecord = WalkRecord {
        area: 0,
        arrival: 0,
        count: 0,
        waiting: [Waiting {
            node: 0,
            load: 0,
            delay: 0,
        }; Limits::TREE_NODES],
    };

    // A leaf arrives at the root.
    fn arrive(&mut self, arrival: u32)
        ensures { self.new ≡ arrived self.old arrival }
    {
        self.arrival = self.arrival.max(arrival);
    }

    // An inverter or NAND is to be covered.
    fn push(&mut self, one: Waiting)
        requires { self.old.count < 64 }
        ensures { self.new ≡ pushed self.old one }
    {
        self.waiting[self.count] = one;
        self.count += 1;
    }

    // The lowest of what is to be covered, if anything is.
    fn pop(&mut self) -> Option<Waiting>
        requires { self.old.count ≤ 64 }
        ensures { MatchOption result (self.old.count ≡ 0) (λ one. Popped self.old one self.new) }
    {
        if self.count == 0 {
            return None;
        }
        self.count -= 1;
        Some(self.waiting[self.count])
    }

    // The walk reaches a node with a symbol: a leaf arrives, an inverter or NAND is to be covered.
    fn visit(&mut self, symbol: u32, one: Waiting)
        requires { (symbol ≤ symbol_limit) × (self.old.count < 64) × (one.load ≤ 255) × (one.delay < base) }
        ensures { Reached self.old symbol one self.new }
    {
        if Packed::LEAF <= symbol {
            let arrival = leaves::leaf_arrival(symbol, u32::from(one.load)) as u32;
            self.arrive(arrival + one.delay);
        } else {
            self.push(one);
        }
    }

    // The inputs of a match taken at `one`, from the last to the first: each under the load of its pin, and later by the pin's delay.
    fn visit_inputs(&mut self, inputs: Inputs, row: &[u32], symbols: &[u32], one: Waiting)
        requires { (l : Library) × ((m : Match) × ((w : Walk) × Entering l row.now symbols.now inputs one self.old m w)) }
        ensures { InputsReached self.old inputs row.now symbols.now one self.new }
    {
        let load = u32::from(one.load);
        for input in inputs.as_slice().iter().rev() {
            let pin = cells::pin_figures(row, usize::from(input.pin));
            let below = Waiting {
                node: input.node,
                load: pin.load as u8,
                delay: cells::delay(pin, load) + one.delay,
            };
            self.visit(symbols[usize::from(input.node)], below);
        }
    }
}

// Why and where a cover is refused: no refusal here is about an item.
fn refused(reason: Reason, place: usize) -> Refusal
    ensures { result ≡ record { item = 0; reason = reason; place = place } }
{
    Refusal {
        item: 0,
        reason,
        place,
    }
}

// Whether a number is a crossing of a drawing with `nands` NANDs: no bit of its five is set after theirs.
fn is_crossing(nands: usize, crossing: u32) -> bool
    requires { nands ≤ 5 }
    ensures { CrossingTold nands crossing result }
{
    crossing < Crossing::NUMBERS && crossing % (Crossing::NUMBERS >> nands) == 0
}

// The walk after a match at `one`, which was the lowest to be covered, of the pattern in a row under a crossing. None: it stands wrongly.
fn take_match(
    mut walk: WalkRecord,
    one: Waiting,
    row: &[u32],
    crossing: u32,
    tree: &TreeRecord,
) -> Option<WalkRecord>
    requires { (l : Library) × ((t : Tree) × ((k : ℕ) × ((p : Pattern) × ((s : Shape) × ((w : Walk) × Taking l t row.now tree.now.symbols tree.now.sizes k p s w walk one))))) }
    ensures { MatchTaken walk one row.now crossing tree.now.symbols tree.now.sizes result }
{
    if !cells::is_legal(row, u32::from(one.load)) {
        return None;
    }
    let extents = overlay::measure(row);
    if !is_crossing(usize::from(extents.words[0]) / Extents::NAND, crossing) {
        return None;
    }
    let Ok(inputs) = overlay::walk(row, extents, crossing, tree, usize::from(one.node)) else {
        return None;
    };
    walk.area += row[PatternRow::AREA];
    walk.visit_inputs(inputs, row, &tree.symbols, one);
    Some(walk)
}

// The walk after a listed match, which must stand at the lowest node still to be covered, and be of a pattern of the library.
// None: it stands wrongly.
fn step(
    mut walk: WalkRecord,
    rows: &[u32],
    tree: &TreeRecord,
    listed: MatchRecord,
) -> Option<WalkRecord>
    requires { (l : Library) × ((t : Tree) × ((k : ℕ) × ((w : Walk) × Stepping l t rows.now tree.now.symbols tree.now.sizes k w walk))) }
    ensures { StepTaken walk rows.now tree.now.symbols tree.now.sizes listed result }
{
    let one = walk.pop()?;
    if one.node != listed.node {
        return None;
    }
    let first = PatternRow::WORDS * usize::from(listed.pattern);
    let row = rows.get(first..first + PatternRow::WORDS)?;
    take_match(walk, one, row, u32::from(listed.crossing), tree)
}

// The walk over a cover's matches: its figures, or the first match that stands wrongly, or that the list ends early.
fn walk_cover(rows: &[u32], tree: &TreeRecord, matches: &[MatchRecord]) -> Result<Figures, Refusal>
    requires { (length matches.now < 64) × ((l : Library) × ((t : Tree) × Judging l t rows.now tree.now)) }
    ensures { CoverWalked rows.now tree.now matches.now result }
{
    let root = Waiting {
        node: 0,
        load: tree.load,
        delay: 0,
    };
    let mut walk = WalkRecord::BEGIN;
    walk.visit(tree.symbols[0], root);
    for (k, listed) in matches.iter().enumerate() {
        let Some(next) = step(walk, rows, tree, *listed) else {
            return Err(refused(Reason::Match, k));
        };
        walk = next;
    }
    if 0 < walk.count {
        return Err(refused(Reason::Match, matches.len()));
    }
    Ok(Figures {
        area: walk.area,
        arrival: walk.arrival,
    })
}

// A cover as it was read, with a sound library and a sound tree: its own figures against those that it states.
fn with_records(
    library: &LibraryRecord,
    tree: &TreeRecord,
    cover: &CoverRecord,
) -> Result<Figures, Refusal>
    requires { (cover.now.count < 64) × ((l : Library) × ((t : Tree) × SheetsStored l t library.now tree.now)) }
    ensures { RecordJudged library.now tree.now cover.now result }
{
    let rows = &library.rows[..PatternRow::WORDS * library.total];
    let figures = walk_cover(rows, tree, &cover.matches[..cover.count])?;
    if figures.area != cover.area || figures.arrival != cover.arrival {
        return Err(refused(Reason::Figures, 0));
    }
    Ok(figures)
}

// A cover sheet, with a sound library and a sound tree.
fn with_tree(library: &LibraryRecord, tree: &TreeRecord, cover: &[u8]) -> Result<Figures, Refusal>
    requires { (l : Library) × ((t : Tree) × SheetsStored l t library.now tree.now) }
    ensures { SheetJudged library.now tree.now cover.now result }
{
    match result_sheets::read_cover(cover) {
        Ok(cover) => with_records(library, tree, &cover),
        Err(flawed) => Err(refused(Reason::CoverSheet, flawed.flaw.place)),
    }
}

// Any tree and any cover sheet, with a sound library.
fn with_library(library: &LibraryRecord, tree: &[u8], cover: &[u8]) -> Result<Figures, Refusal>
    requires { (l : Library) × LibraryStored l library.now }
    ensures tree_judged { TreeJudged library.now tree.now cover.now result }
    ensures fitting { Fitting (tree_said tree.now) }
{
    let tree = tree::read_tree(tree)?;
    with_tree(library, &tree, cover)
}

// Whether a cover sheet is that of a legal cover of the tree by the library's cells, with its true figures.
pub fn judge_cover(library: &[u8], tree: &[u8], cover: &[u8]) -> Result<Figures, Refusal>
    ensures { Judges library.now tree.now cover.now (of_cover_judged result) }
{
    let library = library::read_library(library)?;
    with_library(&library, tree, cover)
}
