// Map and list from the bytes of a library and a tree. What the core finds is written here, and nowhere below.
#![tactic(auto)]

ghost use Rattle.std.specs.Prelude.{◌≤◌, length};
ghost use Rattle.sheets_rules.specs.Model.{Library, Tree};
ghost use Rattle.covers.specs.Answer.{map_answer, list_answer};
ghost use Rattle.covers.specs.Outcome.{map_bytes, list_bytes};
ghost use Rattle.overlay.specs.Inside.Promises.{SheetsStored};
ghost use Rattle.covers.specs.Inside.Allowed.{Allowed};
ghost use Rattle.map_core.specs.Inside.Promises.{Started};
ghost use Rattle.map_rules.specs.Public.{of_reply, Maps, Lists};
ghost use Rattle.map.specs.Inside.Promises.{Lent, RepliesStarted, OperatesStored};

use sheets_rules::{LibraryRecord, Limits, Refusal, TreeRecord};

// The cover of a tree as decoded by the cells of a library as decoded, on its sheet, from a work area of zeros.
fn map_zeros(
    library: &LibraryRecord,
    tree: &TreeRecord,
    most: usize,
    output: &mut [u8],
    work: &mut [u64],
) -> Result<usize, Refusal>
    requires long { map_bytes ≤ length output.old }
    requires started { (l : Library) × ((t : Tree) × Started most l t library.now tree.now work.old) }
    ensures { RepliesStarted map_answer library.now tree.now most work.old output.old output.new (of_reply result) }
{
    let cover = map_core::map_tree(library, tree, most, work)?;
    Ok(result_sheets::write_cover(output, cover))
}

// The same from any work area that is long enough: its first words are zero before the core begins and, once the sheet is written, afterwards.
#[tactic(auto, using(crate::proofs::Laws::started))]
fn map_stored(
    library: &LibraryRecord,
    tree: &TreeRecord,
    most: usize,
    output: &mut [u8],
    work: &mut [u64],
) -> Result<usize, Refusal>
    requires lent { Lent map_bytes most (length output.old) (length work.old) }
    requires sheets { (l : Library) × ((t : Tree) × SheetsStored l t library.now tree.now) }
    ensures { OperatesStored map_answer library.now tree.now most output.old output.new work.old work.new (of_reply result) }
{
    let words = lending::words(most);
    lending::clear(work, most);
    let mapped = map_zeros(library, tree, most, output, &mut work[..words]);
    lending::clear(work, most);
    mapped
}

// The trade-offs of a tree's root on their sheet, from a work area of zeros, where their points stand until it is cleared.
fn list_zeros(
    library: &LibraryRecord,
    tree: &TreeRecord,
    most: usize,
    output: &mut [u8],
    work: &mut [u64],
) -> Result<usize, Refusal>
    requires long { list_bytes ≤ length output.old }
    requires allowed { Allowed most }
    requires started { (l : Library) × ((t : Tree) × Started most l t library.now tree.now work.old) }
    ensures { RepliesStarted list_answer library.now tree.now most work.old output.old output.new (of_reply result) }
{
    let count = map_core::list_tree(library, tree, most, work)?;
    Ok(result_sheets::write_list(output, work, count))
}

// The same from any work area that is long enough, as `map_stored`.
#[tactic(auto, using(crate::proofs::Laws::started))]
fn list_stored(
    library: &LibraryRecord,
    tree: &TreeRecord,
    most: usize,
    output: &mut [u8],
    work: &mut [u64],
) -> Result<usize, Refusal>
    requires lent { Lent list_bytes most (length output.old) (length work.old) }
    requires sheets { (l : Library) × ((t : Tree) × SheetsStored l t library.now tree.now) }
    ensures { OperatesStored list_answer library.now tree.now most output.old output.new work.old work.new (of_reply result) }
{
    let words = lending::words(most);
    lending::clear(work, most);
    let listed = list_zeros(library, tree, most, output, &mut work[..words]);
    lending::clear(work, most);
    listed
}

// The cover of a tree by a library's cells: the smallest that meets the required time, then the earliest.
pub fn map(
    library: &[u8],
    tree: &[u8],
    output: &mut [u8],
    work: &mut [u64],
) -> Result<usize, Refusal>
    ensures { Maps library.now tree.now output.old output.new work.old work.new (of_reply result) }
{
    let most = lending::lend(Limits::OUTPUT_MAP, output.len(), work.len())?;
    let library = library::read_library(library)?;
    let tree = tree::read_tree(tree)?;
    map_stored(&library, &tree, most, output, work)
}

// Every trade-off of a tree's root, earliest first.
// As `map`, with another contract (`Lists`) and another core; so is `map_part`.
pub fn list(
    library: &[u8],
    tree: &[u8],
    output: &mut [u8],
    work: &mut [u64],
) -> Result<usize, Refusal>
    ensures { Lists library.now tree.now output.old output.new work.old work.new (of_reply result) }
{
    let most = lending::lend(Limits::OUTPUT_LIST, output.len(), work.len())?;
    let library = library::read_library(library)?;
    let tree = tree::read_tree(tree)?;
    list_stored(&library, &tree, most, output, work)
}
