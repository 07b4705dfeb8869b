// The part operation: the trees of a part mapped in their order, each with the arrivals that its links bring. No sheet is written before every tree is mapped.
#![tactic(auto)]

ghost use Rattle.std.specs.Prelude.{◌≡◌, ℕ, ◌≤◌, length, get_or};
ghost use mathlib.Core.List.{map, flat_map};
ghost use Rattle.sheets_rules.specs.Model.{Library, Tree};
ghost use Rattle.sheets_rules.specs.Inside.Sound.{LibraryStored};
ghost use Rattle.covers.specs.Capacity.{work_words};
ghost use Rattle.covers.specs.CoverSheet.{cover_sheet};
ghost use Rattle.covers.specs.Lending.{cleared};
ghost use Rattle.covers.specs.Inside.Allowed.{Allowed};
ghost use Rattle.overlay.specs.Inside.Promises.{SheetsStored};
ghost use Rattle.result_sheets.specs.Public.{cover_of, Written};
ghost use Rattle.map_rules.specs.Public.{of_reply};
ghost use Rattle.part_rules.specs.Part.{Part};
ghost use Rattle.part_rules.specs.PartSheet.{trees_most};
ghost use Rattle.part_rules.specs.Outcome.{part_bytes};
ghost use Rattle.part_rules.specs.Public.{MapsPart};
ghost use Rattle.part_read.specs.Inside.Decoded.{PartStored};
ghost use Rattle.part.specs.Inside.Promises.{Few, Lent, Zeros, MapsOne, MapsLinked, MapsTrees, MapsStored};

use part_read::{Drivers, PartRecord};
use result_sheets::CoverRecord;
use sheets_rules::{LibraryRecord, Limits, Reason, Refusal, TreeRecord};

// A tree mapped in a work area that begins with zeros, and does so again afterwards.
// It leaves the words zero, as the two functions below do: a refusal may be the answer after any of them.
fn map_one(
    library: &LibraryRecord,
    tree: &TreeRecord,
    most: usize,
    work: &mut [u64],
) -> Result<CoverRecord, Refusal>
    requires zeros { Zeros most work.old }
    requires sheets { (l : Library) × ((t : Tree) × SheetsStored l t library.now tree.now) }
    ensures work_after { work.new ≡ cleared (work_words most) work.old }
    ensures maps_one { MapsOne most library.now tree.now result }
{
    let words = lending::words(most);
    let mapped = map_core::map_tree(library, tree, most, &mut work[..words]);
    lending::clear(work, most);
    mapped
}

// A tree mapped with the arrivals that the drivers of its nodes bring.
fn map_linked(
    library: &LibraryRecord,
    tree: &TreeRecord,
    drivers: &[u8],
    arrivals: &[u32],
    most: usize,
    work: &mut [u64],
) -> Result<CoverRecord, Refusal>
    requires zeros { Zeros most work.old }
    requires drivers { (length drivers.now ≡ 64) × ((j : ℕ) → get_or drivers.now j 0 ≤ length arrivals.now) }
    requires sheets { (l : Library) × ((t : Tree) × SheetsStored l t library.now tree.now) }
    ensures work_after { work.new ≡ cleared (work_words most) work.old }
    ensures maps_linked { MapsLinked most library.now tree.now drivers.now arrivals.now result }
{
    match part_link::link_tree(*tree, drivers, arrivals) {
        Ok(linked) => map_one(library, &linked, most, work),
        Err(node) => Err(Refusal {
            item: 0,
            reason: Reason::Late,
            place: node,
        }),
    }
}

// The trees of a part mapped in their order.
fn map_trees(
    library: &LibraryRecord,
    part: &PartRecord,
    most: usize,
    work: &mut [u64],
) -> Result<[CoverRecord; Limits::PART_TREES], Refusal>
    requires room { Allowed most × (work_words most ≤ length work.old) }
    requires stored { (l : Library) × ((p : Part) × LibraryStored l library.now × PartStored p part.now) }
    ensures work_after { work.new ≡ cleared (work_words most) work.old }
    ensures maps_trees { MapsTrees most library.now part.now result }
{
    let mut covers = [CoverRecord::bare(0, 0); Limits::PART_TREES];
    let mut arrivals = [0u32; Limits::PART_TREES];
    lending::clear(work, most);
    for k in 0..part.count {
        let first = Drivers::TREE * k;
        let own = &part.drivers[first..first + Drivers::TREE];
        match map_linked(library, &part.trees[k], own, &arrivals, most, work) {
            Ok(cover) => {
                covers[k] = cover;
                arrivals[k] = cover.arrival;
            }
            Err(refusal) => {
                return Err(Refusal {
                    item: k as u32,
                    ..refusal
                });
            }
        }
    }
    Ok(covers)
}

// The sheets of covers, one after another, and how many bytes they take.
fn write_sheets(output: &mut [u8], covers: &[CoverRecord]) -> usize
    requires { (length covers.now ≤ trees_most) × (part_bytes ≤ length output.old) × Few covers.now }
    ensures { Written (flat_map cover_sheet (map cover_of covers.now)) output.old output.new result × (result ≤ part_bytes) }
{
    let mut at = 0;
    for cover in covers {
        at += result_sheets::write_cover(&mut output[at..], *cover);
    }
    at
}

// The sheets of a sound part by a sound library's cells.
fn map_stored(
    library: &LibraryRecord,
    part: &PartRecord,
    most: usize,
    output: &mut [u8],
    work: &mut [u64],
) -> Result<usize, Refusal>
    requires lent { Lent most (length output.old) (length work.old) }
    requires stored { (l : Library) × ((p : Part) × LibraryStored l library.now × PartStored p part.now) }
    ensures { MapsStored library.now part.now most output.old output.new work.old work.new (of_reply result) }
{
    let covers = map_trees(library, part, most, work)?;
    Ok(write_sheets(output, &covers[..part.count]))
}

// The covers of a part's trees by a library's cells: of each the smallest that meets its required time, then the earliest, with the arrivals that its links bring.
pub fn map_part(
    library: &[u8],
    part: &[u8],
    output: &mut [u8],
    work: &mut [u64],
) -> Result<usize, Refusal>
    ensures { MapsPart library.now part.now output.old output.new work.old work.new (of_reply result) }
{
    let most = lending::lend(Limits::OUTPUT_PART, output.len(), work.len())?;
    let library = library::read_library(library)?;
    let part = part_read::read_part(part)?;
    map_stored(&library, &part, most, output, work)
}
