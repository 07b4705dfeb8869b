// The example of source document 003: its least arrival and its whole list. Standard input is as treecover's: the library's length in two
// bytes, high byte first, the library, and the tree as all that is left. Prints "list" and the count, then a line of arrival and area for
// each trade-off; or "refused", number, place.
#![tactic(auto)]

ghost use Rattle.bits.specs.Bits.{place_of};

use fields::{Flaw, Sheet};
use frame::Frame;
use result_sheets::Layout;
use sheets_rules::{Limits, Refusal};

fn write_word(word: &[u8]) {
    io::write_all(Frame::STDOUT, word);
}

// Two numbers, and a newline.
fn write_numbers(first: u64, second: u64) {
    io::print_decimal(Frame::STDOUT, first);
    write_word(b" ");
    io::print_decimal(Frame::STDOUT, second);
    write_word(b"\n");
}

// "refused", number, place.
fn write_refusal(refusal: Refusal) {
    write_word(b"refused ");
    write_numbers(
        u64::from(refusals::number(refusal.reason)),
        refusal.place as u64,
    );
}

// A list sheet: its count, and every trade-off.
fn write_list(sheet: &[u8]) -> Result<(), Flaw> {
    let mut sheet = Sheet::open(sheet);
    let count = sheet.raw(Layout::POINT_COUNT)?;
    write_word(b"list ");
    io::print_decimal(Frame::STDOUT, u64::from(count));
    write_word(b"\n");
    for _ in 0..count {
        let arrival = sheet.raw(Layout::ARRIVAL)?;
        let area = sheet.raw(Layout::AREA)?;
        write_numbers(u64::from(arrival), u64::from(area));
    }
    Ok(())
}

// Lists the trade-offs of a tree.
fn run(library: &[u8], tree: &[u8]) {
    let mut output = [0u8; Limits::OUTPUT_LIST];
    let mut work = [0u64; Limits::WORK];
    match map::list(library, tree, &mut output, &mut work) {
        Ok(_) => {
            if write_list(&output).is_err() {
                write_word(b"flawed\n");
            }
        }
        Err(refusal) => write_refusal(refusal),
    }
}

// The library and the tree of an input; none if it is shorter than it says.
fn sheets_of(input: &[u8]) -> Option<(&[u8], &[u8])> {
    let ([high, low], sheets) = input.split_first_chunk::<{ Frame::LENGTH_BYTES }>()?;
    sheets.split_at_checked(frame::length_of(*high, *low))
}

fn main() {
    let mut input = [0u8; Frame::BUFFER];
    let count = io::read_full(Frame::STDIN, &mut input);
    if let Some((library, tree)) = sheets_of(&input[..count]) {
        run(library, tree);
    }
}
