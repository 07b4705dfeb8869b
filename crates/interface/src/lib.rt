// The C interface: see include/treecover.h. A refusal is item × 2^40 + number × 2^32 + place, the item a tree of a part, or 0.
#![tactic(auto)]

ghost use Rattle.std.specs.Prelude.{◌≡◌, ◌<◌};
ghost use Rattle.fields.specs.Answer.{on_success, items, places, word, of_word, Bounded};
ghost use Rattle.sheets_rules.specs.Report.{refusal as refusalOf, of_library_judged, library_word, of_library_word, library_report, tree_report};
ghost use Rattle.functions_rules.specs.Report.{functions_report};
ghost use Rattle.functions_rules.specs.Demands.{FunctionDemands};
ghost use Rattle.map_rules.specs.Public.{of_reply, Maps, Lists};
ghost use Rattle.judge_rules.specs.Judgement.{judgement, point_word, of_point_word, PointBounded};
ghost use Rattle.judge_rules.specs.Public.{of_cover_judged, Judges};
ghost use Rattle.part_rules.specs.Public.{MapsPart};

use judge_rules::Figures;
use sheets_rules::{Counts, Limits, Refusal};

// A word has the number above the places, and the item above the numbers.
#[derive(Clone, Copy)]
struct AnswerWord {}

impl AnswerWord {
    const PLACES: u64 = 4294967296;

    const NUMBERS: u64 = 256;

    // A power of two above the 128 patterns that a library may have: the cells are counted above them.
    const PATTERNS: usize = 256;

    // The highest bit, which is set where a cover is accepted.
    const ACCEPTED: u64 = 9223372036854775808;
}

// A refusal in one word.
// No `From`, here and below: each asks that its answer fits a word.
#[tactic(auto, unfolding(fields::specs::Answer::word))]
fn refusal_word(refusal: Refusal) -> u64
    requires { (refusal.item < items) × (refusal.place < places) }
    ensures { result ≡ word (refusalOf refusal) }
{
    let number = refusals::number(refusal.reason);
    let above = u64::from(refusal.item) * AnswerWord::NUMBERS + u64::from(number);
    above * AnswerWord::PLACES + refusal.place as u64
}

// What is said of a library in one word: cells × 256 + patterns, or the refusal.
#[tactic(auto, unfolding(sheets_rules::specs::Report::of_library_judged, sheets_rules::specs::Report::library_word, fields::specs::Answer::on_success, fields::specs::Answer::word, fields::specs::Answer::Bounded))]
fn counts_word(judged: Result<Counts, Refusal>) -> u64
    requires { Bounded (on_success library_word (of_library_judged judged)) }
    ensures { result ≡ word (on_success library_word (of_library_judged judged)) }
{
    match judged {
        Ok(counts) => (counts.cells * AnswerWord::PATTERNS + counts.patterns) as u64,
        Err(refusal) => refusal_word(refusal),
    }
}

// Judges a library: cells × 256 + patterns, or the refusal.
#[unsafe(no_mangle)]
pub extern "C" fn treecover_judge_library(library: &[u8]) -> u64
    ensures { result ≡ word (on_success library_word (library_report library.now)) }
{
    counts_word(library::judge_library(library))
}

// Judges the functions of a library's drawings: cells × 256 + patterns, or the refusal.
#[unsafe(no_mangle)]
pub extern "C" fn treecover_judge_functions(library: &[u8], functions: &[u8]) -> u64
    ensures value { result ≡ word (on_success library_word (functions_report library.now functions.now)) }
    ensures function_demands { FunctionDemands library.now functions.now (on_success of_library_word (of_word result)) }
{
    counts_word(functions::judge_functions(library, functions))
}

// Judges a tree: its node count, or the refusal.
#[unsafe(no_mangle)]
#[tactic(auto, unfolding(sheets_rules::specs::Report::of_tree_judged, fields::specs::Answer::word, fields::specs::Answer::Bounded))]
pub extern "C" fn treecover_judge_tree(tree: &[u8]) -> u64
    ensures { result ≡ word (tree_report tree.now) }
{
    match tree::judge_tree(tree) {
        Ok(nodes) => nodes as u64,
        Err(refusal) => refusal_word(refusal),
    }
}

// A reply in one word.
#[tactic(auto, unfolding(map_rules::specs::Public::of_reply, fields::specs::Answer::word, fields::specs::Answer::Bounded))]
fn reply_word(reply: Result<usize, Refusal>) -> u64
    requires { Bounded (of_reply reply) }
    ensures { result ≡ word (of_reply reply) }
{
    match reply {
        Ok(bytes) => bytes as u64,
        Err(refusal) => refusal_word(refusal),
    }
}

// Maps a tree: the bytes of the cover sheet in the output, or the refusal.
#[unsafe(no_mangle)]
pub extern "C" fn treecover_map(
    library: &[u8],
    tree: &[u8],
    output: &mut [u8],
    work: &mut [u64],
) -> u64
    ensures { Maps library.now tree.now output.old output.new work.old work.new (of_word result) }
{
    reply_word(map::map(library, tree, output, work))
}

// Lists the trade-offs of a tree's root: the bytes of the list sheet in the output, or the refusal.
#[unsafe(no_mangle)]
pub extern "C" fn treecover_list(
    library: &[u8],
    tree: &[u8],
    output: &mut [u8],
    work: &mut [u64],
) -> u64
    ensures { Lists library.now tree.now output.old output.new work.old work.new (of_word result) }
{
    reply_word(map::list(library, tree, output, work))
}

// A judgement of a cover in one word.
#[tactic(auto, unfolding(judge_rules::specs::Public::of_cover_judged, judge_rules::specs::Judgement::point_word, judge_rules::specs::Judgement::PointBounded))]
fn judged_word(judged: Result<Figures, Refusal>) -> u64
    requires { PointBounded (of_cover_judged judged) }
    ensures { result ≡ point_word (of_cover_judged judged) }
{
    match judged {
        Ok(figures) => {
            AnswerWord::ACCEPTED
                + u64::from(figures.area) * Limits::TIMES
                + u64::from(figures.arrival)
        }
        Err(refusal) => refusal_word(refusal),
    }
}

// Judges a cover sheet: 2^63 + area × 2^24 + arrival, or the refusal.
#[unsafe(no_mangle)]
pub extern "C" fn treecover_judge_cover(library: &[u8], tree: &[u8], cover: &[u8]) -> u64
    ensures value { result ≡ point_word (judgement library.now tree.now cover.now) }
    ensures judges { Judges library.now tree.now cover.now (of_point_word result) }
{
    judged_word(judge::judge_cover(library, tree, cover))
}

// Maps the trees of a part: the bytes of their cover sheets in the output, or the refusal with its tree.
#[unsafe(no_mangle)]
pub extern "C" fn treecover_map_part(
    library: &[u8],
    part: &[u8],
    output: &mut [u8],
    work: &mut [u64],
) -> u64
    ensures { MapsPart library.now part.now output.old output.new work.old work.new (of_word result) }
{
    reply_word(part::map_part(library, part, output, work))
}
