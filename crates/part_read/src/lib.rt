// The part sheet, decoded: its trees, and for each of their nodes the tree that drives it.
#![tactic(auto)]

ghost use Rattle.std.specs.Prelude.{◌≡◌, [], ◌+◌, ◌*◌, ◌<◌, ◌≤◌, ◌^◌, length};
ghost use Rattle.bits.specs.Bits.{place_of};
ghost use Rattle.fields.specs.Reading.{times};
ghost use Rattle.fields.specs.Inside.Promises.{Reads};
ghost use Rattle.sheets_rules.specs.Inside.Readers.{Says};
ghost use Rattle.part_rules.specs.PartSheet.{links_at, link_width, link as link_of, trees_most};
ghost use Rattle.part_rules.specs.PartRead.{trees_from, part as part_of};
ghost use Rattle.part_read.specs.Inside.Decoded.{no_tree, TreesStored, PartStored};
ghost use Rattle.part_read.specs.Inside.Promises.{LinkLaid, LinksLaid, SmallLink, CountsAre, CountsFew, JudgesLink, JudgesLinks, ReadsRest};

use bits::Cursor;
use fields::{Flaw, Sheet};
use shapes_rules::Packed;
use sheets_rules::{Limits, Reason, Refusal, TreeRecord};

// A link as decoded.
#[derive(Clone, Copy)]
pub struct LinkRecord {
    pub reading: u8,
    pub node: u8,
    pub driving: u8,
}

impl LinkRecord {
    // What stands where no link is.
    const NONE: LinkRecord = LinkRecord {
        reading: 0,
        node: 0,
        driving: 0,
    };
}

// A part as decoded: its trees, and for node n of tree k, at 64 × k + n, 0 or one more than the number of the tree that drives it.
// The array and its count stand side by side: memory is fixed, and there is no heap.
#[derive(Clone, Copy)]
pub struct PartRecord {
    pub count: usize,
    pub trees: [TreeRecord; Limits::PART_TREES],
    pub drivers: [u8; Drivers::ALL],
}

// What stands before the trees: how many they are, the first `count` links of an array, and the cursor after them.
// The array and its count stand side by side: memory is fixed, and there is no heap.
#[derive(Clone, Copy)]
pub struct CountsRecord {
    pub trees: usize,
    pub count: usize,
    pub links: [LinkRecord; Limits::PART_LINKS],
    pub after: Cursor,
}

// A driver for each node of each tree.
#[derive(Clone, Copy)]
pub struct Drivers {}

impl Drivers {
    pub const TREE: usize = Limits::TREE_NODES;

    pub const ALL: usize = Limits::PART_TREES * Drivers::TREE;
}

// How wide the fields are, in bits.
#[derive(Clone, Copy)]
struct Width {}

impl Width {
    const TREE_COUNT: usize = 5;

    const LINK_COUNT: usize = 8;

    const TREE: usize = 4;

    const LEAF: usize = 6;

    const LINK: usize = 2 * Width::TREE + Width::LEAF;

    const COUNTS: usize = Width::TREE_COUNT + Width::LINK_COUNT;
}

// A refusal that is about no tree.
fn refuse(reason: Reason, place: usize) -> Refusal
    ensures { result ≡ record { item = 0; reason = reason; place = place } }
{
    Refusal {
        item: 0,
        reason,
        place,
    }
}

// One link of a part with `trees` trees.
#[tactic(auto, unfolding(part_rules::specs::PartSheet::link))]
fn read_link(sheet: &mut Sheet, trees: u32) -> Result<LinkRecord, Flaw>
    requires { (place_of sheet.old.at < 2 ^ 31) × (trees ≤ trees_most) }
    ensures { Reads sheet.old sheet.new (λ s. link_of s trees []) LinkLaid link_width result }
{
    let last = trees.saturating_sub(1);
    let reading = sheet.ranged(Width::TREE, 0, last)?;
    let node = sheet.raw(Width::LEAF)?;
    let driving = sheet.ranged(Width::TREE, 0, last)?;
    Ok(LinkRecord {
        reading: reading as u8,
        node: node as u8,
        driving: driving as u8,
    })
}

// The links.
fn read_links(
    sheet: &mut Sheet,
    trees: u32,
    count: u32,
) -> Result<[LinkRecord; Limits::PART_LINKS], Flaw>
    requires { (place_of sheet.old.at ≤ links_at) × (trees ≤ trees_most) × (count ≤ 255) }
    ensures { Reads sheet.old sheet.new (λ s. times count (link_of s trees)) (LinksLaid count) (link_width * count) result }
{
    let mut links = [LinkRecord::NONE; Limits::PART_LINKS];
    for k in 0..count {
        links[k as usize] = read_link(sheet, trees)?;
    }
    Ok(links)
}

// The counts and the links.
fn read_counts(s: &[u8]) -> Result<CountsRecord, Flaw>
    ensures { CountsAre s.now result }
{
    let mut sheet = Sheet::open(s);
    let trees = sheet.ranged(Width::TREE_COUNT, 1, Limits::PART_TREES as u32)?;
    let count = sheet.raw(Width::LINK_COUNT)?;
    let links = read_links(&mut sheet, trees, count)?;
    sheet.fill()?;
    Ok(CountsRecord {
        trees: trees as usize,
        count: count as usize,
        links,
        after: sheet.at,
    })
}

// What stands where no tree is.
// A record of zeros: no shorter as a constant.
fn no_tree() -> TreeRecord
    ensures { result ≡ no_tree }
{
    TreeRecord {
        load: 0,
        required: 0,
        count: 0,
        symbols: [0u32; Limits::TREE_NODES],
        sizes: [0u8; Limits::TREE_NODES],
    }
}

// The `count` trees, each from its own first byte on.
fn read_trees(s: &[u8], count: usize) -> Result<[TreeRecord; Limits::PART_TREES], Refusal>
    requires { count ≤ trees_most }
    ensures { Says (λ ts l. TreesStored ts l × (length ts ≡ count)) (trees_from [] count s.now) result }
{
    let mut trees = [no_tree(); Limits::PART_TREES];
    let mut first = 0;
    for k in 0..count {
        match tree::read_tree_to(&s[first..], k + 1 == count) {
            Ok((tree, after)) => {
                trees[k] = tree;
                first += after.bytes_to();
            }
            Err(flaw) => {
                return Err(Refusal {
                    item: k as u32,
                    reason: Reason::Tree(flaw.fault),
                    place: flaw.place,
                });
            }
        }
    }
    Ok(trees)
}

// One link against its reading tree, after whose nodes zeros stand, and its leaf's driver among the links before: its leaf field, then its own driver.
fn judge_link(
    tree: &TreeRecord,
    link: LinkRecord,
    driver: u8,
    position: usize,
) -> Result<(), Refusal>
    requires { SmallLink link × (position ≤ 255) }
    ensures { JudgesLink tree.now link driver position result }
{
    let leaf_field = Width::COUNTS + Width::LINK * position + Width::TREE;
    if tree.symbols[link.node as usize] < Packed::LEAF {
        return Err(refuse(Reason::Link, leaf_field));
    }
    if driver != 0 {
        return Err(refuse(Reason::Link, leaf_field));
    }
    if link.reading <= link.driving {
        return Err(refuse(Reason::Driver, position));
    }
    Ok(())
}

// The links against the trees, one after another, and the driver of every node by them.
fn judge_links(
    trees: &[TreeRecord; Limits::PART_TREES],
    counts: &CountsRecord,
) -> Result<[u8; Drivers::ALL], Refusal>
    requires { CountsFew counts.now }
    ensures { JudgesLinks trees.now counts.now result }
{
    let mut drivers = [0u8; Drivers::ALL];
    for k in 0..counts.count {
        let link = counts.links[k];
        let reading = link.reading as usize;
        let at = Drivers::TREE * reading + link.node as usize;
        judge_link(&trees[reading], link, drivers[at], k)?;
        drivers[at] = link.driving + 1;
    }
    Ok(drivers)
}

// What stands after the counts and the links: the trees, and then the links against them.
fn read_rest(s: &[u8], counts: &CountsRecord) -> Result<PartRecord, Refusal>
    requires { CountsFew counts.now }
    ensures { ReadsRest counts.now s.now result }
{
    let trees = read_trees(s, counts.trees)?;
    let drivers = judge_links(&trees, counts)?;
    Ok(PartRecord {
        count: counts.trees,
        trees,
        drivers,
    })
}

// The part sheet.
pub fn read_part(s: &[u8]) -> Result<PartRecord, Refusal>
    ensures { Says PartStored (part_of s.now) result }
{
    match read_counts(s) {
        Ok(counts) => read_rest(&s[counts.after.bytes_to()..], &counts),
        Err(flaw) => Err(refuse(Reason::Link, flaw.place)),
    }
}
