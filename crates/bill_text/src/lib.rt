// The text that `bill` prints: the bill of the cover that the last of an input's three sheets says.
#![tactic(auto)]

ghost use Rattle.std.specs.Prelude.{◌≡◌, List, ◌+◌, ◌≤◌, ◌<◌, ◌^◌, true, false, map, length, take, MatchOption};
ghost use Rattle.io.specs.Counts.{IsPrefixLen};
ghost use Rattle.fields.specs.Answer.{success};
ghost use Rattle.sheets_rules.specs.Model.{Library, Tree};
ghost use Rattle.covers.specs.Cover.{Point, Placed};
ghost use Rattle.result_sheets.specs.Public.{placed_of, Written};
ghost use Rattle.judge_rules.specs.Judgement.{judgement};
ghost use Rattle.text.specs.Inside.Promises.{HasRoom, Appended};
ghost use Rattle.frame.specs.Framed.{outcome_text};
ghost use Rattle.bill_rules.specs.Bill.{margin as marginOf};
ghost use Rattle.bill_rules.specs.Billed.{is_spoiled, total_line, margin_line, bill_shown, longest_bill, billed, billed_within};
ghost use Rattle.bill_rules.specs.Demands.{BilledWhereWhole};
ghost use Rattle.bill_text.specs.Inside.Promises.{entry_text, Countable, Tallies, Tallied, TallyPut, BillStored, BillPut, AreSheets};

use frame::Sheets;
use result_sheets::{CoverRecord, MatchRecord};
use sheets_rules::{Limits, PatternRow};
use text::Text;

// How many lengths an input has: library, tree and cover sheet.
const LENGTHS: usize = 3;

// No text is longer than this: 63 cells, the total and the margin.
pub const LONGEST: usize = 912;

const CELLS: usize = Limits::CELLS as usize;

// How many matches are of a cell, and their areas added up.
#[derive(Clone, Copy)]
pub struct Entry {
    pub count: u32,
    pub amount: u32,
}

// Counts matches by their cells, and adds up their areas.
fn count_cells(matches: &[MatchRecord], rows: &[u32]) -> [Entry; CELLS]
    requires { (l : Library) × Countable l rows.now (map placed_of matches.now) }
    ensures { Tallies rows.now (map placed_of matches.now) result }
{
    let mut entries = [Entry {
        count: 0,
        amount: 0,
    }; CELLS];
    for one in matches {
        let row = PatternRow::WORDS * usize::from(one.pattern);
        let entry = &mut entries[rows[row + PatternRow::CELL] as usize];
        entry.count += 1;
        entry.amount += rows[row + PatternRow::AREA];
    }
    entries
}

// Puts the line of a cell, if it is used.
fn put_entry(text: &mut Text, cell: usize, entry: Entry)
    requires { HasRoom (entry_text cell entry.count entry.amount) text.old }
    ensures { Appended (entry_text cell entry.count entry.amount) text.old text.new }
{
    if entry.count == 0 {
        return;
    }
    text.put_number(cell as u64);
    text.put_last(u64::from(entry.count), u64::from(entry.amount));
}

// Puts a line for each cell that is used, and answers the total.
fn put_entries(text: &mut Text, entries: &[Entry]) -> u32
    requires { (l : Library) × ((xs : List Placed) × Tallied l xs entries.now text.old) }
    ensures { TallyPut entries.now text.old text.new result }
{
    let mut total = 0;
    for (cell, entry) in entries.iter().enumerate() {
        put_entry(text, cell, *entry);
        total += entry.amount;
    }
    total
}

// Puts the line of the total.
fn put_total(text: &mut Text, total: u32)
    requires { HasRoom (total_line total) text.old }
    ensures { Appended (total_line total) text.old text.new }
{
    text.put_word(b"total ");
    text.put_number(u64::from(total));
    text.put_word(b"\n");
}

// Puts the line of the margin.
fn put_margin(text: &mut Text, margin: i32)
    requires { HasRoom (margin_line margin) text.old }
    ensures { Appended (margin_line margin) text.old text.new }
{
    text.put_word(b"margin ");
    text.put_signed(margin);
    text.put_word(b"\n");
}

// The required time minus the arrival: negative for a late cover. Both fit, so `try_from` would add an error that cannot happen.
fn margin_of(required: u32, arrival: u32) -> i32
    requires { (required < 2 ^ 31) × (arrival < 2 ^ 31) }
    ensures { result ≡ marginOf required arrival }
{
    required as i32 - arrival as i32
}

// Puts the bill of a legal cover. It comes by value: behind a reference the length of its array is not known to the proof.
fn put_bill(text: &mut Text, rows: &[u32], cells: usize, cover: CoverRecord, required: u32)
    requires { (text.old.len + longest_bill ≤ length text.old.bytes.now) × ((l : Library) × ((t : Tree) × BillStored l t rows.now cells cover required)) }
    ensures { BillPut rows.now cells cover required text.old text.new }
{
    let entries = count_cells(&cover.matches[..cover.count], rows);
    let total = put_entries(text, &entries[..cells]);
    put_total(text, total);
    put_margin(text, margin_of(required, cover.arrival));
}

// Puts the bill of an accepted cover: the three sheets are sound, so none is refused.
fn put_accepted(text: &mut Text, library: &[u8], tree: &[u8], cover: &[u8])
    requires { (text.old.len + longest_bill ≤ length text.old.bytes.now) × ((p : Point) × (judgement library.now tree.now cover.now ≡ success p)) }
    ensures { Appended (outcome_text (bill_shown library.now tree.now cover.now)) text.old text.new }
{
    let Ok(library) = library::read_library(library) else {
        unreachable!();
    };
    let Ok(tree) = tree::read_tree(tree) else {
        unreachable!();
    };
    let Ok(cover) = result_sheets::read_cover(cover) else {
        unreachable!();
    };
    put_bill(text, &library.rows, library.count, cover, tree.required);
}

// Puts what is said of a cover: the refusal, or its bill.
fn put_judged(text: &mut Text, library: &[u8], tree: &[u8], cover: &[u8])
    requires { text.old.len + longest_bill ≤ length text.old.bytes.now }
    ensures { Appended (outcome_text (bill_shown library.now tree.now cover.now)) text.old text.new }
{
    match judge::judge_cover(library, tree, cover) {
        Ok(_) => put_accepted(text, library, tree, cover),
        Err(refusal) => frame::put_refusal(text, refusal),
    }
}

// The library, the tree and the cover sheet of an input; none if it is spoiled.
fn sheets_of(input: &[u8]) -> Option<(&[u8], &[u8], &[u8])>
    ensures { MatchOption result (is_spoiled input.now ≡ true) (AreSheets input.now) }
{
    let mut left = Sheets::of_input(input, LENGTHS)?;
    let library = left.take_sheet()?;
    let tree = left.take_sheet()?;
    let cover = left.take_sheet()?;
    if !left.bytes.is_empty() {
        return None;
    }
    Some((library, tree, cover))
}

// Puts what is printed for an input.
fn put_billed(text: &mut Text, input: &[u8])
    requires { text.old.len + longest_bill ≤ length text.old.bytes.now }
    ensures { Appended (billed input.now) text.old text.new }
{
    match sheets_of(input) {
        None => frame::put_spoiled(text),
        Some((library, tree, cover)) => put_judged(text, library, tree, cover),
    }
}

// Puts what is printed for an input at the front of the text, and answers how many bytes it takes. A text that may be too
// short is left as it was. `print_cover` is its twin: one function for both would have to be told what each text is, and that is no plainer.
pub fn print_bill(input: &[u8], text: &mut [u8]) -> usize
    ensures written { Written (billed_within (length text.old) input.now) text.old text.new result }
    ensures prefix_len { IsPrefixLen result text.new }
    ensures billed_where_whole { BilledWhereWhole (length text.old) input.now (take result text.new) }
{
    if text.len() < LONGEST {
        return 0;
    }
    let mut text = Text::new(text);
    put_billed(&mut text, input);
    text.len
}

// Reads an input from standard input and prints its text; answers how many bytes were printed.
pub fn run() -> usize
    ensures { result ≤ longest_bill }
{
    frame::run(&mut [0u8; LONGEST], print_bill)
}
