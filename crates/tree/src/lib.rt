// The tree sheet: what is decoded from it, and its judge.
#![tactic(auto)]

ghost use Rattle.std.specs.Prelude.{◌≡◌, ◌<◌, ◌^◌, replicate};
ghost use Rattle.bits.specs.Bits.{place_of};
ghost use Rattle.fields.specs.Answer.{Bounded};
ghost use Rattle.fields.specs.Reading.{tailed};
ghost use Rattle.fields.specs.Inside.Promises.{Closes, Reads};
ghost use Rattle.tree.specs.Inside.Promises.{HeadIs};
ghost use Rattle.sheets_rules.specs.Reach.{tree_bits};
ghost use Rattle.sheets_rules.specs.TreeSheet.{tail_at, tree_to};
ghost use Rattle.sheets_rules.specs.Inside.Readers.{TreeToIs, TreeIs};
ghost use Rattle.sheets_rules.specs.declared.Reason.TheVariants.{Tree};
ghost use Rattle.sheets_rules.specs.Report.{of_tree_judged, TreeLimits, tree_report};

use bits::Cursor;
use fields::{Flaw, Sheet};
use shapes_rules::Rules;
use sheets_rules::{Limits, Reason, Refusal, TreeRecord};

// The widths of the tree sheet's fields.
#[derive(Clone, Copy)]
struct Width {}

impl Width {
    const LOAD: usize = 8;

    const TIME: usize = 24;

    // A leaf's arrival.
    const ARRIVAL: usize = 20;
}

// What a tree sheet says but for its nodes, and how many they are.
#[derive(Clone, Copy)]
pub struct TreeHead {
    pub load: u8,
    pub required: u32,
    pub count: usize,
}

// What follows a tree's last field: the end of the bytes, or, before another tree of a part, the rest of the byte.
// `last` is a word of the definition (`tree_to`), which this function follows.
fn tail(sheet: &Sheet, last: bool) -> Result<(), Flaw>
    requires { place_of sheet.now.at < 2 ^ 32 }
    ensures { Closes (tailed (tail_at last sheet.now.bytes.now)) sheet.now.at result }
{
    if last { sheet.end() } else { sheet.fill() }
}

// The tree sheet, its nodes' symbols laid out in an array of zeros.
#[tactic(auto, unfolding(sheets_rules::specs::TreeSheet::tree_to))]
fn read_nodes(
    sheet: &mut Sheet,
    last: bool,
    symbols: &mut [u32; Limits::TREE_NODES],
) -> Result<TreeHead, Flaw>
    requires { (symbols.old ≡ replicate 64 0) × (place_of sheet.old.at ≡ 0) }
    ensures { Reads sheet.old sheet.new (tree_to last) (HeadIs symbols.new) tree_bits result }
{
    let load = sheet.ranged(Width::LOAD, 0, Limits::LOAD)?;
    let required = sheet.ranged(Width::TIME, 0, Limits::TIME)?;
    let rules = Rules {
        width: Width::ARRIVAL,
        most: Limits::ARRIVAL,
        nodes: Limits::TREE_NODES,
        pattern: false,
    };
    let read = shapes::read_shape(sheet, rules, symbols)?;
    tail(sheet, last)?;
    Ok(TreeHead {
        load: load as u8,
        required,
        count: read.size,
    })
}

// The tree sheet at the front of the bytes, and the cursor after it: the last, with which they end, or one before another of a part.
pub fn read_tree_to(s: &[u8], last: bool) -> Result<(TreeRecord, Cursor), Flaw>
    ensures { TreeToIs s.now last result }
{
    let mut sheet = Sheet::open(s);
    let mut symbols = [0u32; Limits::TREE_NODES];
    let head = read_nodes(&mut sheet, last, &mut symbols)?;
    let mut sizes = [0u8; Limits::TREE_NODES];
    shapes::set_sizes(&symbols, head.count, &mut sizes);
    let tree = TreeRecord {
        load: head.load,
        required: head.required,
        count: head.count,
        symbols,
        sizes,
    };
    Ok((tree, sheet.at))
}

// A tree sheet's refusal. It differs from a library's in its reason alone: a function for both would have to be told which.
fn refuse(flaw: Flaw) -> Refusal
    ensures { result ≡ record { item = 0; reason = Tree flaw.fault; place = flaw.place } }
{
    Refusal {
        item: 0,
        reason: Reason::Tree(flaw.fault),
        place: flaw.place,
    }
}

// The tree sheet.
pub fn read_tree(s: &[u8]) -> Result<TreeRecord, Refusal>
    ensures { TreeIs s.now result }
{
    match read_tree_to(s, true) {
        Ok((tree, _)) => Ok(tree),
        Err(flaw) => Err(refuse(flaw)),
    }
}

// Judges a tree: its node count, or what is wrong with it and where. No sizes are set.
pub fn judge_tree(s: &[u8]) -> Result<usize, Refusal>
    ensures result_value { of_tree_judged result ≡ tree_report s.now }
    ensures bounded { Bounded (of_tree_judged result) × TreeLimits (of_tree_judged result) }
{
    let mut sheet = Sheet::open(s);
    let mut symbols = [0u32; Limits::TREE_NODES];
    match read_nodes(&mut sheet, true, &mut symbols) {
        Ok(head) => Ok(head.count),
        Err(flaw) => Err(refuse(flaw)),
    }
}
