// Runs the stored cases on standard input through the judges, map, list, the part operation, the texts of treecover and of bill, and writes what each answers.
// A case opens with a kind, and its lengths are two bytes each, high byte first.
//   0 library, 1 tree: the sheet's length, the sheet.
//   2 map, 3 list: the lengths of library, tree, output in bytes and work area in words, the library, the tree.
//   4 treecover: the input's length, the input.
//   5 a cover to be judged: the lengths of library, tree and cover sheet, the three sheets.
//   6 bill: the input's length, the input.
//   7 functions to be judged: the lengths of library and function sheet, the two sheets.
//   8 a part: as 2, with the part in place of the tree.
// A case is read when the one before it is answered, so that no array has to hold them all. One that is cut short, too long or of another kind is answered "spoiled",
// and is the last.
#![tactic(auto)]

ghost use Rattle.std.specs.Prelude.{◌<◌, ◌≤◌, length};

use frame::Frame;
use judge_rules::Figures;
use sheets_rules::{Counts, Limits, Reason, Refusal};

// How much is read: the lengths of a case, its sheets, and how many cases.
#[derive(Clone, Copy)]
struct Input {}

impl Input {
    const MOST_LENGTHS: usize = 4;

    const LENGTHS: usize = Frame::LENGTH_BYTES * Input::MOST_LENGTHS;

    // Twice the most bytes that the sheets of a stored case have together.
    const SHEETS: usize = 16384;

    // More cases than any input has: nothing says that an input ends, and a proved loop has to.
    const CASES: u32 = 1000000;
}

// A case that is cut short, too long or of no kind that there is.
#[derive(Clone, Copy, Debug, PartialEq, Eq)]
struct Spoiled;

// The kinds of cases.
#[derive(Clone, Copy, Debug, PartialEq, Eq)]
enum Kind {
    Library,
    Tree,
    Map,
    List,
    Treecover,
    Cover,
    Bill,
    Functions,
    Part,
}

impl TryFrom<u8> for Kind {
    type Error = Spoiled;

    fn try_from(number: u8) -> Result<Self, Spoiled> {
        match number {
            0 => Ok(Kind::Library),
            1 => Ok(Kind::Tree),
            2 => Ok(Kind::Map),
            3 => Ok(Kind::List),
            4 => Ok(Kind::Treecover),
            5 => Ok(Kind::Cover),
            6 => Ok(Kind::Bill),
            7 => Ok(Kind::Functions),
            8 => Ok(Kind::Part),
            _ => Err(Spoiled),
        }
    }
}

impl Kind {
    // How many lengths a case of the kind has.
    fn length_count(self) -> usize
        ensures { result ≤ 4 }
    {
        match self {
            Kind::Library | Kind::Tree | Kind::Treecover | Kind::Bill => 1,
            Kind::Functions => 2,
            Kind::Cover => 3,
            Kind::Map | Kind::List | Kind::Part => Input::MOST_LENGTHS,
        }
    }
}

// Where the sheets of a case end, one after another, and what it is lent.
#[derive(Clone, Copy, Debug, PartialEq, Eq)]
struct Layout {
    first: usize,
    second: usize,
    end: usize,
    bytes: usize,
    words: usize,
}

// What a case may be lent, and what stands in it before.
#[derive(Clone, Copy)]
struct Lent {}

impl Lent {
    const OUTPUT: usize = 4000;

    const WORK: usize = 12345;

    const BYTE: u8 = 165;

    const WORD: u64 = 11936128518282651045;
}

// The digits of a byte in hexadecimal.
const HEX_DIGITS: usize = 2;

// ---- the lines that answer a case

// A case is spoiled, or asks for more than can be lent.
fn write_spoiled() {
    io::write_all(Frame::STDOUT, b"spoiled\n");
}

// What was handed over or lent is not as it should be.
fn write_changed() {
    io::write_all(Frame::STDOUT, b"changed\n");
}

// A space and a number.
fn write_number(n: u64) {
    io::write_all(Frame::STDOUT, b" ");
    io::print_decimal(Frame::STDOUT, n);
}

fn end_line() {
    io::write_all(Frame::STDOUT, b"\n");
}

// A word and two numbers.
fn write_pair(word: &[u8], first: u64, second: u64) {
    io::write_all(Frame::STDOUT, word);
    write_number(first);
    write_number(second);
    end_line();
}

// "refused", number, place.
fn write_refusal(refusal: Refusal) {
    let number = refusals::number(refusal.reason);
    write_pair(b"refused", u64::from(number), refusal.place as u64);
}

// A word, cell count, pattern count; or the refusal.
fn write_counts(word: &[u8], judged: Result<Counts, Refusal>) {
    match judged {
        Ok(counts) => write_pair(word, counts.cells as u64, counts.patterns as u64),
        Err(refusal) => write_refusal(refusal),
    }
}

// ---- the texts of treecover and of bill, each compared with its fixed words

// Whether a line of a text opens with a word.
fn has_line(text: &[u8], word: &[u8]) -> bool {
    text.split(|byte| *byte == b'\n')
        .any(|line| line.starts_with(word))
}

// Whether a text is one of those for an input that has no answer.
fn answers_nothing(text: &[u8]) -> bool {
    text.starts_with(b"refused ") || text.starts_with(b"spoiled\n")
}

// Whether a text opens with one of the words that treecover's texts open with.
fn opens_fixed(text: &[u8]) -> bool {
    answers_nothing(text) || text.starts_with(b"cover ")
}

// Whether a text has the words that bill's texts have: one of those for an input that has no bill, or both of a bill.
fn has_fixed(text: &[u8]) -> bool {
    answers_nothing(text) || has_line(text, b"total ") && has_line(text, b"margin ")
}

// A text; before it a line "changed" if it is not as such a text should be.
fn write_text(text: &[u8], sound: bool) {
    if !sound {
        write_changed();
    }
    io::write_all(Frame::STDOUT, text);
}

// The text that treecover prints.
fn run_text(input: &[u8]) {
    let mut text = [0u8; treecover_text::LONGEST];
    let length = treecover_text::print_cover(input, &mut text);
    let text = &text[..length];
    write_text(text, opens_fixed(text));
}

// The text that bill prints.
fn run_bill(input: &[u8]) {
    let mut text = [0u8; bill_text::LONGEST];
    let length = bill_text::print_bill(input, &mut text);
    let text = &text[..length];
    write_text(text, has_fixed(text));
}

// ---- map, list and the part operation, with an output and a work area that are looked at afterwards

// Whether output and work area are, after a sheet of `bytes` bytes or a refusal, as document 01 has them.
fn lent_kept(output: &[u8], work: &[u64], bytes: usize, clears: bool) -> bool {
    let words = if clears { Limits::WORK } else { 0 };
    let Some((cleared, kept)) = work.split_at_checked(words) else {
        return false;
    };
    output.iter().skip(bytes).all(|byte| *byte == Lent::BYTE)
        && cleared.iter().all(|word| *word == 0)
        && kept.iter().all(|word| *word == Lent::WORD)
}

// A word, how many bytes, and the bytes in hexadecimal: the first of the output.
fn write_sheet(word: &[u8], output: &[u8], bytes: usize) {
    io::write_all(Frame::STDOUT, word);
    write_number(bytes as u64);
    io::write_all(Frame::STDOUT, b" ");
    for byte in output.iter().take(bytes) {
        io::print_hex(Frame::STDOUT, u64::from(*byte), HEX_DIGITS);
    }
    end_line();
}

// Whether the work area is zero after a refusal.
fn clears(reason: Reason) -> bool {
    matches!(reason, Reason::Overfull | Reason::NoCover | Reason::Late)
}

// "refused", number, place; of a part the tree after them.
fn write_lent_refusal(refusal: Refusal, part: bool) {
    io::write_all(Frame::STDOUT, b"refused");
    write_number(u64::from(refusals::number(refusal.reason)));
    write_number(refusal.place as u64);
    if part {
        write_number(u64::from(refusal.item));
    }
    end_line();
}

// The reply as a line; before it a line "changed" if something lent is not as it should be.
fn write_reply(
    reply: Result<usize, Refusal>,
    word: &[u8],
    part: bool,
    output: &[u8],
    work: &[u64],
) {
    match reply {
        Ok(bytes) => {
            if !lent_kept(output, work, bytes, true) {
                write_changed();
            }
            write_sheet(word, output, bytes);
        }
        Err(refusal) => {
            if !lent_kept(output, work, 0, clears(refusal.reason)) {
                write_changed();
            }
            write_lent_refusal(refusal, part);
        }
    }
}

// Map, list or the part operation, lent as many bytes and words as the layout says, with something in them. Its sheets' line opens with a word.
fn run_operation<F: Fn(&[u8], &[u8], &mut [u8], &mut [u64]) -> Result<usize, Refusal>>(
    operation: F,
    word: &[u8],
    part: bool,
    sheets: &[u8],
    layout: Layout,
)
    requires callable { F.IsAlwaysCallable operation }
    requires within { layout.first ≤ length sheets.now }
{
    let mut output = [Lent::BYTE; Lent::OUTPUT];
    let mut work = [Lent::WORD; Lent::WORK];
    let (Some(output), Some(work)) = (output.get_mut(..layout.bytes), work.get_mut(..layout.words))
    else {
        write_spoiled();
        return;
    };
    let (library, tree) = sheets.split_at(layout.first);
    let reply = operation(library, tree, output, work);
    write_reply(reply, word, part, output, work);
}

// ---- a case, read and run

// A length of a case, by its number.
fn length_at(lengths: &[u8; Input::LENGTHS], number: usize) -> usize
    requires { number < 4 }
    ensures { result < 65536 }
{
    let at = Frame::LENGTH_BYTES * number;
    frame::length_of(lengths[at], lengths[at + 1])
}

// What the lengths of a case say, of which `count` are there and the others are 0. With all four there are two sheets, and the last two lengths are of what it is lent.
fn layout_of(lengths: &[u8; Input::LENGTHS], count: usize) -> Layout
    ensures { (result.first ≤ result.second) × (result.second ≤ result.end) }
{
    let first = length_at(lengths, 0);
    let second = first + length_at(lengths, 1);
    let third = length_at(lengths, 2);
    if count == Input::MOST_LENGTHS {
        return Layout {
            first,
            second,
            end: second,
            bytes: third,
            words: length_at(lengths, 3),
        };
    }
    Layout {
        first,
        second,
        end: second + third,
        bytes: 0,
        words: 0,
    }
}

// "library" and its counts; or the refusal.
fn run_library(sheet: &[u8]) {
    write_counts(b"library", library::judge_library(sheet));
}

// "tree", node count; or the refusal.
fn run_tree(sheet: &[u8]) {
    match tree::judge_tree(sheet) {
        Ok(nodes) => {
            io::write_all(Frame::STDOUT, b"tree");
            write_number(nodes as u64);
            end_line();
        }
        Err(refusal) => write_refusal(refusal),
    }
}

// "accepted", area, arrival; or the refusal.
fn run_cover(library: &[u8], tree: &[u8], cover: &[u8]) {
    match judge::judge_cover(library, tree, cover) {
        Ok(Figures { area, arrival }) => write_pair(
            b"accepted",
            u64::from(area),
            u64::from(arrival),
        ),
        Err(refusal) => write_refusal(refusal),
    }
}

// "functions" and the library's counts; or the refusal.
fn run_functions(library: &[u8], functions: &[u8]) {
    write_counts(b"functions", functions::judge_functions(library, functions));
}

// A whole case.
fn run_case(kind: Kind, sheets: &[u8], layout: Layout)
    requires { (layout.first ≤ layout.second) × (layout.second ≤ length sheets.now) }
{
    let first = layout.first;
    let second = layout.second;
    // The input says which: this is a program's dispatch.
    match kind {
        Kind::Library => run_library(sheets),
        Kind::Tree => run_tree(sheets),
        Kind::Map => run_operation(map::map, b"cover", false, sheets, layout),
        Kind::List => run_operation(map::list, b"list", false, sheets, layout),
        Kind::Treecover => run_text(sheets),
        Kind::Cover => run_cover(&sheets[..first], &sheets[first..second], &sheets[second..]),
        Kind::Bill => run_bill(sheets),
        Kind::Functions => run_functions(&sheets[..first], &sheets[first..]),
        Kind::Part => run_operation(part::map_part, b"part", true, sheets, layout),
    }
}

// Fills a space from standard input, if there is enough.
fn read_whole(space: &mut [u8]) -> Result<(), Spoiled> {
    if io::read_full(Frame::STDIN, space) < space.len() {
        return Err(Spoiled);
    }
    Ok(())
}

// Reads the rest of a case, whose kind has this number, and runs it.
fn run_rest(number: u8) -> Result<(), Spoiled> {
    let kind = Kind::try_from(number)?;
    let count = kind.length_count();
    let mut lengths = [0u8; Input::LENGTHS];
    read_whole(&mut lengths[..Frame::LENGTH_BYTES * count])?;
    let layout = layout_of(&lengths, count);
    let mut sheets = [0u8; Input::SHEETS];
    let sheets = sheets.get_mut(..layout.end).ok_or(Spoiled)?;
    read_whole(sheets)?;
    run_case(kind, sheets, layout);
    Ok(())
}

// The number of the next case's kind, if there is one.
fn next_number() -> Option<u8> {
    let mut number = [0u8; 1];
    read_whole(&mut number).ok()?;
    Some(number[0])
}

fn main() {
    for _ in 0..Input::CASES {
        let Some(number) = next_number() else {
            return;
        };
        if run_rest(number).is_err() {
            write_spoiled();
            return;
        }
    }
}
