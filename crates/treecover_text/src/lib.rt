// The text that `treecover` prints: the outcome of map for an input that holds a library and a tree.
#![tactic(auto)]

ghost use Rattle.std.specs.Prelude.{◌≡◌, ◌+◌, ◌*◌, ◌<◌, ◌≤◌, ◌^◌, true, false, length, map, take, MatchOption};
ghost use Rattle.io.specs.Counts.{IsPrefixLen};
ghost use Rattle.fields.specs.Reading.{Live, start};
ghost use Rattle.sheets_rules.specs.LibrarySheet.{library as library_of};
ghost use Rattle.sheets_rules.specs.Inside.Layout.{row_words};
ghost use Rattle.covers.specs.CoverSheet.{match_count_width, cover_read};
ghost use Rattle.result_sheets.specs.Public.{placed_of, cover_of, Written};
ghost use Rattle.text.specs.Inside.Promises.{HasRoom, Appended};
ghost use Rattle.frame.specs.Framed.{spoiled, outcome_text};
ghost use Rattle.treecover_text.specs.Printed.{cover_line, map_shown, longest_text, printed, printed_within};
ghost use Rattle.treecover_text.specs.Demands.{PrintedWhereWhole};
ghost use Rattle.treecover_text.specs.Inside.Rows.{rows_of, cover_in, row_line, row_lines, row_text, HaveRows, Printable, AreSheets};

use frame::Sheets;
use result_sheets::{CoverRecord, MatchRecord};
use sheets_rules::{Limits, PatternRow};
use text::Text;

// How many lengths an input has: the library's alone.
const LENGTHS: usize = 1;

// No text is longer than this: that of a cover of 63 matches.
pub const LONGEST: usize = 844;

// Puts the first line of a cover.
fn put_head(text: &mut Text, area: u32, arrival: u32, count: usize)
    requires { HasRoom (cover_line area arrival count) text.old }
    ensures { Appended (cover_line area arrival count) text.old text.new }
{
    text.put_word(b"cover");
    text.put_spaced(u64::from(area));
    text.put_last(u64::from(arrival), count as u64);
}

// Puts the line of a match.
fn put_match(text: &mut Text, one: MatchRecord, rows: &[u32])
    requires { (row_words * one.pattern < length rows.now) × HasRoom (row_line rows.now (placed_of one)) text.old }
    ensures { Appended (row_line rows.now (placed_of one)) text.old text.new }
{
    let cell = rows[PatternRow::WORDS * usize::from(one.pattern) + PatternRow::CELL];
    text.put_number(u64::from(one.node));
    text.put_spaced(u64::from(cell));
    text.put_last(u64::from(one.pattern), u64::from(one.crossing));
}

// Puts a line for each match.
fn put_matches(text: &mut Text, matches: &[MatchRecord], rows: &[u32])
    requires { HaveRows rows.now (map placed_of matches.now) × HasRoom (row_lines rows.now (map placed_of matches.now)) text.old }
    ensures { Appended (row_lines rows.now (map placed_of matches.now)) text.old text.new }
{
    for one in matches {
        put_match(text, *one, rows);
    }
}

// Puts the text of a cover. It comes by value: behind a reference the length of its array is not known to the proof.
fn put_cover(text: &mut Text, cover: CoverRecord, rows: &[u32])
    requires { (cover.count < 2 ^ match_count_width) × Printable rows.now (cover_of cover) text.old }
    ensures { Appended (row_text rows.now (cover_of cover)) text.old text.new }
{
    put_head(text, cover.area, cover.arrival, cover.count);
    put_matches(text, &cover.matches[..cover.count], rows);
}

// Puts the text of a cover sheet, by a library's cells. Both sheets are sound, so neither is refused.
fn put_sheet(text: &mut Text, sheet: &[u8], library: &[u8])
    requires sound { Live (library_of library.now start).1 × Live (cover_read sheet.now start).1 }
    requires printable { Printable (rows_of library.now) (cover_in sheet.now) text.old }
    ensures { Appended (row_text (rows_of library.now) (cover_in sheet.now)) text.old text.new }
{
    let Ok(library) = library::read_library(library) else {
        unreachable!();
    };
    let Ok(cover) = result_sheets::read_cover(sheet) else {
        unreachable!();
    };
    put_cover(text, cover, &library.rows);
}

// Puts the outcome of map for a library and a tree.
fn put_map(text: &mut Text, library: &[u8], tree: &[u8])
    requires { text.old.len + longest_text ≤ length text.old.bytes.now }
    ensures { Appended (outcome_text (map_shown library.now tree.now)) text.old text.new }
{
    let mut output = [0u8; Limits::OUTPUT_MAP];
    let mut work = [0u64; Limits::WORK];
    match map::map(library, tree, &mut output, &mut work) {
        Ok(bytes) => put_sheet(text, &output[..bytes], library),
        Err(refusal) => frame::put_refusal(text, refusal),
    }
}

// The library and the tree of an input; none if it is spoiled.
fn sheets_of(input: &[u8]) -> Option<(&[u8], &[u8])>
    ensures { MatchOption result (spoiled input.now 1 false ≡ true) (AreSheets input.now) }
{
    let mut left = Sheets::of_input(input, LENGTHS)?;
    let library = left.take_sheet()?;
    Some((library, left.bytes))
}

// Puts what is printed for an input.
fn put_printed(text: &mut Text, input: &[u8])
    requires { text.old.len + longest_text ≤ length text.old.bytes.now }
    ensures { Appended (printed input.now) text.old text.new }
{
    match sheets_of(input) {
        None => frame::put_spoiled(text),
        Some((library, tree)) => put_map(text, library, tree),
    }
}

// Puts what is printed for an input at the front of the text, and answers how many bytes it takes. A text that may be too
// short is left as it was.
pub fn print_cover(input: &[u8], text: &mut [u8]) -> usize
    ensures written { Written (printed_within (length text.old) input.now) text.old text.new result }
    ensures prefix_len { IsPrefixLen result text.new }
    ensures printed_where_whole { PrintedWhereWhole (length text.old) input.now (take result text.new) }
{
    if text.len() < LONGEST {
        return 0;
    }
    let mut text = Text::new(text);
    put_printed(&mut text, input);
    text.len
}

// Reads an input from standard input and prints its text; answers how many bytes were printed.
pub fn run() -> usize
    ensures { result ≤ longest_text }
{
    frame::run(&mut [0u8; LONGEST], print_cover)
}
