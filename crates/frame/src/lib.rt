// The frame of the programs: an input that holds several sheets with their lengths in front, the two lines by which any input may be refused, and a
// run from standard input to standard output.
#![tactic(auto)]

ghost use Rattle.std.specs.Prelude.{◌≡◌, ◌+◌, ◌*◌, ◌<◌, ◌≤◌, length, MatchOption};
ghost use Rattle.sheets_rules.specs.Report.{number_of};
ghost use Rattle.text.specs.Inside.Promises.{Appended, HasRoom};
ghost use Rattle.frame.specs.Framed.{refusal_line, spoiled_line};
ghost use Rattle.frame.specs.Inside.Promises.{most_lengths, IsSpoiled, Taken, TakesNext, PutsFront};

use sheets_rules::{Limits, Refusal};
use text::Text;

// The bytes of one length, the descriptors that standard input and the output go by, and what the input is read into.
#[derive(Clone, Copy)]
pub struct Frame {}

impl Frame {
    pub const LENGTH_BYTES: usize = 2;

    // The descriptors of standard input and of standard output.
    // By descriptors, as `io` has them: what its contracts say of what was read is cited (`IsPrefixLen`).
    pub const STDIN: i32 = 0;

    pub const STDOUT: i32 = 1;

    // One byte more than the longest input, so that a longer one shows.
    pub const BUFFER: usize = Limits::INPUT + 1;
}

// A length of two bytes, high byte first.
pub fn length_of(high: u8, low: u8) -> usize
    ensures { (result ≡ 256 * high + low) × (result < 65536) }
{
    256 * usize::from(high) + usize::from(low)
}

// What is left of an input: the lengths of the sheets that are not yet taken, and all bytes from the first of these sheets on.
#[derive(Clone, Copy)]
pub struct Sheets<'a> {
    pub lengths: &'a [u8],
    pub bytes: &'a [u8],
}

impl<'a> Sheets<'a> {
    // The sheets of an input that opens with `count` lengths; none if it lacks some of them, or is too long.
    pub fn of_input(input: &'a [u8], count: usize) -> Option<Sheets<'a>>
        requires { count ≤ most_lengths }
        ensures { MatchOption result (IsSpoiled input.now count) (Taken input.now count 0) }
    {
        if input.len() > Limits::INPUT {
            return None;
        }
        let (lengths, bytes) = input.split_at_checked(Frame::LENGTH_BYTES * count)?;
        Some(Sheets { lengths, bytes })
    }

    // Takes the next sheet; none if no length is left, or the input ends before the sheet does.
    pub fn take_sheet(&mut self) -> Option<&'a [u8]>
        ensures { TakesNext self.old self.new result }
    {
        let ([high, low], lengths) = self.lengths.split_first_chunk::<{ Frame::LENGTH_BYTES }>()?;
        let (sheet, bytes) = self.bytes.split_at_checked(length_of(*high, *low))?;
        *self = Sheets { lengths, bytes };
        Some(sheet)
    }
}

// Runs a program: reads standard input, prints what `print` puts at the front of a text for it, and answers how many bytes these are.
pub fn run<F: Fn(&[u8], &mut [u8]) -> usize>(text: &mut [u8], print: F) -> usize
    requires callable { F.IsAlwaysCallable print }
    requires puts_front { PutsFront (F.post print) }
    ensures { result ≤ length text.old }
{
    let mut input = [0u8; Frame::BUFFER];
    let count = io::read_full(Frame::STDIN, &mut input);
    let length = print(&input[..count], text);
    io::write_all(Frame::STDOUT, &text[..length]);
    length
}

// Puts the line of a refusal with any number and place.
pub fn put_refused(text: &mut Text, number: u32, place: usize)
    requires { HasRoom (refusal_line number place) text.old }
    ensures { Appended (refusal_line number place) text.old text.new }
{
    text.put_word(b"refused");
    text.put_last(u64::from(number), place as u64);
}

// Puts the line of a refusal.
pub fn put_refusal(text: &mut Text, refusal: Refusal)
    requires { HasRoom (refusal_line (number_of refusal.reason) refusal.place) text.old }
    ensures { Appended (refusal_line (number_of refusal.reason) refusal.place) text.old text.new }
{
    put_refused(text, refusals::number(refusal.reason), refusal.place);
}

// Puts the line of an input that is not what its lengths say.
pub fn put_spoiled(text: &mut Text)
    requires { HasRoom spoiled_line text.old }
    ensures { Appended spoiled_line text.old text.new }
{
    text.put_word(b"spoiled\n");
}
