// Which patterns match at a node of the subject tree, and under which crossings. They are found once for a node, and serve every load and every
// deadline.
#![tactic(auto)]

ghost use Rattle.std.specs.Prelude.{◌≡◌, ◌+◌, ◌-◌, ◌*◌, ◌/◌, ◌^◌, ◌<◌, ◌≤◌, length};
ghost use Rattle.sheets_rules.specs.Model.{Shape, Library, Pattern, Tree};
ghost use Rattle.covers.specs.Crossing.{crossing_limit};
ghost use Rattle.matching.specs.Inside.Promises.{Trying, CrossingsFound, Ready, MatchesFound};

use overlay::{Crossing, Extents, Inputs};
use sheets_rules::{Limits, PatternRow, TreeRecord};

// A hit, which is a match as it is found: the numbers of its pattern and its crossing, and its inputs. All else is read from the pattern's row.
#[derive(Clone, Copy)]
pub struct Hit {
    pub pattern: u8,
    pub crossing: u8,
    pub inputs: Inputs,
}

impl Hit {
    // What stands in a table where there is no hit.
    pub const NONE: Hit = Hit {
        pattern: 0,
        crossing: 0,
        inputs: Inputs::NONE,
    };

    // Each pattern under each crossing, at the most.
    pub const MATCHES: usize = Limits::PATTERNS * Crossing::NUMBERS as usize;
}

// The next crossing that differs from this one in its first `bits` bits.
fn next_crossing(crossing: u32, bits: usize) -> u32
    requires { (crossing < crossing_limit) × (bits ≤ 5) }
    ensures { (result ≡ (crossing / 2 ^ (5 - bits) + 1) * 2 ^ (5 - bits)) × (crossing < result) × (result ≤ crossing_limit) }
{
    let unused = 5 - bits;
    ((crossing >> unused) + 1) << unused
}

// The matches of one pattern: a hit for each after `count` hits, in the order of crossing numbers. Crossings that begin with the bits which ruled
// out one are not tried. Answers how many hits there are then.
fn find_crossings(
    row: &[u32],
    tree: &TreeRecord,
    n: usize,
    pattern: u8,
    table: &mut [Hit],
    count: usize,
) -> usize
    requires { (p : Pattern) × ((s : Shape) × Trying row.now tree.now.symbols tree.now.sizes n pattern (length table.old) count p s) }
    ensures { CrossingsFound row.now tree.now.symbols tree.now.sizes n pattern count table.old table.new result }
{
    let extents = overlay::measure(row);
    let nands = usize::from(extents.words[0]) / Extents::NAND;
    let mut found = count;
    let mut crossing: u32 = 0;
    // What each walk finds decides how many crossings to pass over: no range gives those that are tried.
    while crossing < Crossing::NUMBERS {
        match overlay::walk(row, extents, crossing, tree, n) {
            Ok(inputs) => {
                table[found] = Hit {
                    pattern,
                    crossing: crossing as u8,
                    inputs,
                };
                found += 1;
                crossing = next_crossing(crossing, nands);
            }
            Err(used) => {
                crossing = next_crossing(crossing, used);
            }
        }
    }
    found
}

// The matches of a node: a hit for each in the table, in the order of pattern numbers and then of crossing numbers. Answers how many there are.
pub fn find_matches(rows: &[u32], tree: &TreeRecord, n: usize, table: &mut [Hit]) -> usize
    requires { (l : Library) × ((t : Tree) × ((s : Shape) × Ready l t rows.now tree.now.symbols tree.now.sizes n (length table.old) s)) }
    ensures { MatchesFound rows.now tree.now.symbols tree.now.sizes n table.old table.new result }
{
    let mut count = 0;
    for p in 0..rows.len() / PatternRow::WORDS {
        let first = PatternRow::WORDS * p;
        let row = &rows[first..first + PatternRow::WORDS];
        count = find_crossings(row, tree, n, p as u8, table, count);
    }
    count
}
