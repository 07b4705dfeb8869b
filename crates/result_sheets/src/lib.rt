// The cover sheet and the list sheet, written into a lent output and read back.
#![tactic(auto)]

ghost use Rattle.std.specs.Prelude.{◌≡◌, [], ◌∷◌, ◌++◌, ◌+◌, ◌*◌, ◌/◌, ◌<◌, ◌≤◌, ◌^◌, map, reverse, length, drop, replicate};
ghost use Rattle.bits.specs.Bits.{place_of};
ghost use Rattle.fields.specs.Reading.{times};
ghost use Rattle.fields.specs.Written.{written};
ghost use Rattle.covers.specs.CoverSheet.{match_count_width, point_count_width, placed_fields, point_fields, cover_sheet, list_sheet, placed_read, cover_read};
ghost use Rattle.result_sheets.specs.Public.{placed_of, no_match, bare_cover, appended, cover_of, match_width, cover_bits, Written, CoverIs};
ghost use Rattle.covers.specs.Inside.Curve.{point_of};
ghost use Rattle.result_sheets.specs.Inside.Promises.{points_of, Listable, Puts};

use fields::{Flaw, Sheet};
use sheets_rules::Limits;

// How wide the fields of the cover sheet and the list sheet are, in bits.
#[derive(Clone, Copy)]
pub struct Layout {}

impl Layout {
    pub const AREA: usize = 22;

    pub const ARRIVAL: usize = 24;

    pub const MATCH_COUNT: usize = 6;

    pub const NODE: usize = 6;

    pub const PATTERN: usize = 7;

    pub const CROSSING: usize = 5;

    pub const POINT_COUNT: usize = 5;

    // An area and an arrival, the fields before the matches, and one match.
    pub const POINT: usize = Layout::AREA + Layout::ARRIVAL;

    pub const MATCHES_AT: usize = Layout::POINT + Layout::MATCH_COUNT;

    pub const MATCH: usize = Layout::NODE + Layout::PATTERN + Layout::CROSSING;
}

// A match: its node, its pattern's number and its crossing number.
#[derive(Clone, Copy)]
pub struct MatchRecord {
    pub node: u8,
    pub pattern: u8,
    pub crossing: u8,
}

// A cover: its area, its arrival, and its `count` matches, the first of the array.
// The array and its count stand side by side: memory is fixed, and there is no heap.
#[derive(Clone, Copy)]
pub struct CoverRecord {
    pub area: u32,
    pub arrival: u32,
    pub count: usize,
    pub matches: [MatchRecord; Limits::TREE_NODES],
}

// A cover sheet that is refused: its flaw, and the cover as far as it was read: what was not is 0.
#[derive(Clone, Copy)]
pub struct FlawedCover {
    pub flaw: Flaw,
    pub cover: CoverRecord,
}

impl CoverRecord {
    // A cover with no match yet.
    pub fn bare(area: u32, arrival: u32) -> Self
        ensures { result ≡ bare_cover area arrival }
    {
        let blank = MatchRecord {
            node: 0,
            pattern: 0,
            crossing: 0,
        };
        CoverRecord {
            area,
            arrival,
            count: 0,
            matches: [blank; Limits::TREE_NODES],
        }
    }

    // One match more, after those that it has.
    pub fn push(&mut self, one: MatchRecord)
        requires { self.old.count < 64 }
        ensures { self.new ≡ appended self.old (placed_of one ∷ []) }
    {
        self.matches[self.count] = one;
        self.count += 1;
    }
}

// Makes the bytes that `width` bits take zero, and answers how many they are.
fn clear(output: &mut [u8], width: usize) -> usize
    requires { width ≤ 8 * length output.old }
    ensures cleared { output.new ≡ replicate result 0 ++ drop result output.old }
    ensures bytes { result ≡ (width + 7) / 8 }
{
    let bytes = width.div_ceil(8);
    output[..bytes].fill(0);
    bytes
}

// Puts the fields of the matches, after a cover's other fields.
fn put_matches(output: &mut [u8], matches: &[MatchRecord])
    requires { (length matches.now < 2 ^ match_count_width) × (cover_bits (length matches.now) ≤ 8 * length output.old) }
    ensures { output.new ≡ written (placed_fields (map placed_of matches.now)) (cover_bits 0) output.old }
{
    let mut at = Layout::MATCHES_AT;
    for one in matches {
        bits::put(output, at, Layout::NODE, u32::from(one.node));
        at += Layout::NODE;
        bits::put(output, at, Layout::PATTERN, u32::from(one.pattern));
        at += Layout::PATTERN;
        bits::put(output, at, Layout::CROSSING, u32::from(one.crossing));
        at += Layout::CROSSING;
    }
}

// Writes the sheet of a cover, and answers how many bytes it takes. The cover comes by value, as callers of the public function have handed it.
pub fn write_cover(output: &mut [u8], cover: CoverRecord) -> usize
    requires { (cover.count < 2 ^ match_count_width) × (cover_bits cover.count ≤ 8 * length output.old) }
    ensures { Written (cover_sheet (cover_of cover)) output.old output.new result }
{
    let count = cover.count;
    let bytes = clear(output, Layout::MATCHES_AT + Layout::MATCH * count);
    bits::put(output, 0, Layout::AREA, cover.area);
    bits::put(output, Layout::AREA, Layout::ARRIVAL, cover.arrival);
    bits::put(output, Layout::POINT, Layout::MATCH_COUNT, count as u32);
    put_matches(output, &cover.matches[..count]);
    bytes
}

// Puts the fields of the words' points, the last first, after a list's count.
fn put_points(output: &mut [u8], points: &[u64])
    requires { Listable (length points.now) points.now output.old }
    ensures { output.new ≡ written (point_fields (reverse (map point_of points.now))) point_count_width output.old }
{
    let mut at = Layout::POINT_COUNT;
    for k in (0..points.len()).rev() {
        let word = points[k];
        bits::put(output, at, Layout::ARRIVAL, (word % Limits::TIMES) as u32);
        at += Layout::ARRIVAL;
        bits::put(output, at, Layout::AREA, (word / Limits::TIMES) as u32);
        at += Layout::AREA;
    }
}

// Writes the list sheet of the first `count` words' points, which stand latest first, and answers how many bytes it takes.
pub fn write_list(output: &mut [u8], points: &[u64], count: usize) -> usize
    requires { Listable count points.now output.old }
    ensures { Written (list_sheet (points_of count points.now)) output.old output.new result }
{
    let bytes = clear(output, Layout::POINT_COUNT + Layout::POINT * count);
    bits::put(output, 0, Layout::POINT_COUNT, count as u32);
    put_points(output, &points[..count]);
    bytes
}

// One match, put where none is: of a refused one what was read before.
fn read_match(sheet: &mut Sheet<'_>, one: &mut MatchRecord) -> Result<(), Flaw>
    requires { (one.old ≡ no_match) × (place_of sheet.old.at ≤ cover_bits 63) }
    ensures { Puts sheet.old sheet.new (λ s. placed_read s []) (placed_of one.new) match_width result }
{
    one.node = sheet.raw(Layout::NODE)? as u8;
    one.pattern = sheet.raw(Layout::PATTERN)? as u8;
    one.crossing = sheet.raw(Layout::CROSSING)? as u8;
    Ok(())
}

// The matches, one after another, put where none is.
fn read_matches(sheet: &mut Sheet<'_>, matches: &mut [MatchRecord]) -> Result<(), Flaw>
    requires none { matches.old ≡ replicate (length matches.old) no_match }
    requires near { (length matches.old ≤ 63) × (place_of sheet.old.at ≤ cover_bits 0) }
    ensures { Puts sheet.old sheet.new (λ s. times (length matches.old) (placed_read s)) (map placed_of matches.new) (match_width * length matches.old) result }
{
    for one in matches.iter_mut() {
        read_match(sheet, one)?;
    }
    Ok(())
}

// The fields of the sheet, put into an empty cover one after another, so that it has what was read before a flaw.
fn read_fields(sheet: &mut Sheet<'_>, cover: &mut CoverRecord) -> Result<(), Flaw>
    requires { (cover.old ≡ bare_cover 0 0) × (place_of sheet.old.at ≡ 0) }
    ensures put { Puts sheet.old sheet.new cover_read (cover_of cover.new) (cover_bits 63) result }
    ensures few { (cover.new.count ≤ 63) × (cover.new.count ≤ length cover.new.matches) }
{
    cover.area = sheet.raw(Layout::AREA)?;
    cover.arrival = sheet.raw(Layout::ARRIVAL)?;
    cover.count = sheet.raw(Layout::MATCH_COUNT)? as usize;
    read_matches(sheet, &mut cover.matches[..cover.count])?;
    sheet.end()
}

// The cover that a sheet says, or what is wrong with the sheet, and the cover as far as it was read.
pub fn read_cover(s: &[u8]) -> Result<CoverRecord, FlawedCover>
    ensures { CoverIs s.now result }
{
    let mut sheet = Sheet::open(s);
    let mut cover = CoverRecord::bare(0, 0);
    match read_fields(&mut sheet, &mut cover) {
        Ok(()) => Ok(cover),
        Err(flaw) => Err(FlawedCover { flaw, cover }),
    }
}
