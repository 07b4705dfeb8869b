// Curves by deadline: the least point of a node before an instant, and the curve of a node under a load.
#![tactic(auto)]

ghost use Rattle.std.specs.Prelude.{◌≡◌, ◌+◌, ◌*◌, ◌<◌, ◌≤◌, ℕ, length, get_or};
ghost use Rattle.sheets_rules.specs.Inside.Layout.{row_words};
ghost use Rattle.covers.specs.Inside.Curve.{base, lookup};
ghost use Rattle.leaves.specs.Inside.Leaf.{symbol_limit};
ghost use Rattle.cells.specs.Inside.Cell.{PinSafe};
ghost use Rattle.curves.specs.Inside.Words.{point_limit, match_limit, stored, curve_at, Small, WorkArea};
ghost use Rattle.curves.specs.Inside.Best.{hit_at, pattern_of, input_best, input_late, hit_best, legal_best, InputSafe, HitSafe, SourcesSafe, HitsKnown, Above};
ghost use Rattle.curves.specs.Inside.Promises.{first_before, Worth, AllRising, PointsFit, Kept, Least, CurveStored};

use cells::PinFigures;
use matching::Hit;
use overlay::Input;
use shapes_rules::Packed;
use sheets_rules::{Limits, PatternRow, Slots};

// How many curves a node has: one for each load bin; and how many words of a curve are tested in a straight line.
#[derive(Clone, Copy)]
pub struct Words {}

impl Words {
    // A kept word that says that there is no point: it is above every point's word, so that the least of kept words is found by `min` alone.
    const ABSENT: u64 = 1 << 63;

    pub const BINS: usize = Slots::BINS;

    pub const LINE: usize = 32;
}

// The curves in a work area, each of at most `most` points.
#[derive(Clone, Copy)]
pub struct Curves<'a> {
    pub work: &'a [u64],
    pub most: usize,
    pub ghost area: { WorkArea most work.now },
}

// What the points of a match's inputs are read from: the tree's symbols, and the curves of later nodes.
#[derive(Clone, Copy)]
pub struct Sources<'a> {
    pub symbols: &'a [u32],
    pub curves: Curves<'a>,
    pub ghost symbols_length: { length symbols.now ≡ 64 },
    pub ghost symbols_small: { (k : ℕ) → get_or symbols.now k 0 ≤ symbol_limit },
}

// A match as it is read: its pattern's row, and its hit.
#[derive(Clone, Copy)]
pub struct Match<'a> {
    pub pattern: &'a [u32],
    pub hit: &'a Hit,
    pub ghost pattern_length: { length pattern.now ≡ row_words },
    pub ghost safe: { HitSafe pattern.now hit.now },
}

// The matches of a node: the rows of all patterns, and the node's hits.
#[derive(Clone, Copy)]
pub struct Matches<'a> {
    pub rows: &'a [u32],
    pub hits: &'a [Hit],
    pub ghost known: { HitsKnown rows.now hits.now },
}

// Which curve is to be found: its number, the load that the node drives, and how many points it may have.
#[derive(Clone, Copy)]
pub struct Target {
    pub at: usize,
    pub load: u32,
    pub most: usize,
}

// The first of these words before an instant: a point that arrives before it, or the 0 that ends a curve.
fn probe_words(words: &[u64], end: u64) -> Option<u64>
    ensures { result ≡ first_before end words.now }
{
    words.iter().copied().find(|w| *w % Limits::TIMES < end)
}

// The same of a whole curve. A fixed count of words comes first: a straight line of tests, so that each place of a curve has a branch of its own.
fn probe(curve: &[u64], end: u64) -> Option<u64>
    ensures { result ≡ first_before end curve.now }
{
    if curve.len() < Words::LINE {
        return probe_words(curve, end);
    }
    match probe_words(&curve[..Words::LINE], end) {
        None => probe_words(&curve[Words::LINE..], end),
        first => first,
    }
}

// The first point of a curve that arrives before `end`.
#[tactic(auto, using(crate::proofs::Laws::found_nothing, crate::proofs::Laws::found_worth))]
pub fn find(curve: &[u64], end: u64) -> Option<u64>
    requires { Small curve.now }
    ensures { Worth point_limit end result (lookup end (stored curve.now)) }
{
    let w = probe(curve, end)?;
    (w != 0).then_some(w)
}

impl<'a> Curves<'a> {
    // The first point before `end` of the curve with a number: that of node n under bin b has the number 4 * n + b.
    pub fn look_up(&self, at: usize, end: u64) -> Option<u64>
        requires { at < 256 }
        ensures { Worth point_limit end result (lookup end (stored (curve_at self.now.most self.now.work.now at))) }
    {
        let first = (self.most + 1) * at;
        find(&self.work[first..first + (self.most + 1)], end)
    }
}

impl<'a> Sources<'a> {
    // The symbols, and the curves in a work area of at most `most` points each.
    pub fn new(symbols: &'a [u32], work: &'a [u64], most: usize) -> Sources<'a>
        requires { SourcesSafe most symbols.now work.now }
        ensures symbols_kept { result.symbols.now ≡ symbols.now }
        ensures work_kept { result.curves.work.now ≡ work.now }
        ensures most_kept { result.curves.most ≡ most }
    {
        Sources {
            symbols,
            curves: Curves { work, most },
        }
    }

    // The least point before `end` of an input at a pin with these figures.
    #[tactic(auto, using(crate::proofs::Laws::leaf_worth, crate::proofs::Laws::gate_best, crate::proofs::Laws::found_never))]
    fn input_best(&self, node: usize, pin: PinFigures, end: u64) -> Option<u64>
        requires { (node < 64) × PinSafe pin }
        ensures { Worth point_limit end result (input_best self.now.curves.most self.now.symbols.now self.now.curves.work.now node pin.bin pin.load end) }
    {
        let symbol = self.symbols[node];
        if Packed::LEAF <= symbol {
            let arrival = leaves::leaf_arrival(symbol, pin.load);
            return (arrival < end).then_some(arrival);
        }
        if end == 0 {
            return None;
        }
        self.curves
            .look_up(Words::BINS * node + pin.bin as usize, end)
    }
}

impl<'a> Match<'a> {
    // The least point before `end` of an input, as the match sees it. The figures of its pin stand in the pattern's row.
    fn input_word(&self, input: Input, sources: &Sources<'_>, load: u32, end: u64) -> Option<u64>
        requires input_safe { InputSafe self.now.pattern.now input }
        requires load_bound { (load ≤ 255) × (end ≤ base) }
        ensures { let s = sources.now in Worth point_limit end result (input_late s.curves.most s.symbols.now s.curves.work.now self.now.pattern.now load end input) }
    {
        let pin = cells::pin_figures(self.pattern, usize::from(input.pin));
        let d = u64::from(cells::delay(pin, load));
        let w = sources.input_best(usize::from(input.node), pin, end.saturating_sub(d))?;
        Some(w + d)
    }

    // The least point of the match before `end`: its cell on top of its inputs side by side.
    fn hit_best(&self, sources: &Sources<'_>, load: u32, end: u64) -> Option<u64>
        requires { (load ≤ 255) × (end ≤ base) }
        ensures { let s = sources.now in Worth match_limit end result (hit_best s.curves.most s.symbols.now s.curves.work.now self.now.pattern.now self.now.hit.now load end) }
    {
        if end == 0 {
            return None;
        }
        let mut area: u64 = 0;
        let mut arrival: u64 = 0;
        for input in self.hit.inputs.as_slice() {
            let w = self.input_word(*input, sources, load, end)?;
            area += w / Limits::TIMES;
            arrival = arrival.max(w % Limits::TIMES);
        }
        Some((u64::from(self.pattern[PatternRow::AREA]) + area) * Limits::TIMES + arrival)
    }

    // The same, if the match is legal under the load.
    #[tactic(auto, unfolding(crate::specs::Inside::Best::legal_best))]
    pub fn legal_best(&self, sources: &Sources<'_>, load: u32, end: u64) -> Option<u64>
        requires { (load ≤ 255) × (end ≤ base) }
        ensures { let s = sources.now in Worth match_limit end result (legal_best s.curves.most s.symbols.now s.curves.work.now self.now.pattern.now self.now.hit.now load end) }
    {
        if !cells::is_legal(self.pattern, load) {
            return None;
        }
        self.hit_best(sources, load, end)
    }
}

impl<'a> Matches<'a> {
    // Match j.
    pub fn at(&self, j: usize) -> Match<'a>
        requires { j < length self.now.hits.now }
        ensures hit_is { result.hit.now ≡ hit_at self.now.hits.now j }
        ensures pattern_is { result.pattern.now ≡ pattern_of self.now.rows.now (hit_at self.now.hits.now j) }
    {
        let hit = &self.hits[j];
        let first = PatternRow::WORDS * usize::from(hit.pattern);
        Match {
            pattern: &self.rows[first..first + PatternRow::WORDS],
            hit,
        }
    }

    // The least point of each match before the latest instant, kept.
    fn keep_all(&self, sources: &Sources<'_>, kept: &mut [u64], load: u32)
        requires load_bound { (load ≤ 255) × (length self.now.hits.now ≤ length kept.old) }
        requires all_rising { let s = sources.now in AllRising s.curves.most s.symbols.now s.curves.work.now self.now.rows.now self.now.hits.now load }
        ensures { let s = sources.now in Kept s.curves.most s.symbols.now s.curves.work.now self.now.rows.now self.now.hits.now load (length self.now.hits.now) base kept.new }
    {
        for (j, word) in kept[..self.hits.len()].iter_mut().enumerate() {
            *word = self
                .at(j)
                .legal_best(sources, load, Limits::TIMES)
                .unwrap_or(Words::ABSENT);
        }
    }

    // The least point before `end` of all of them. A match's point only rises as the instant falls: one whose kept point is no less than the least
    // so far is passed over, and one that is still in time stays; only the others are worked out again.
    fn best(&self, sources: &Sources<'_>, kept: &mut [u64], load: u32, end: u64) -> Option<u64>
        requires load_bound { (load ≤ 255) × (end ≤ base) × (length self.now.hits.now ≤ length kept.old) }
        requires all_rising { let s = sources.now in AllRising s.curves.most s.symbols.now s.curves.work.now self.now.rows.now self.now.hits.now load }
        requires kept { let s = sources.now in Kept s.curves.most s.symbols.now s.curves.work.now self.now.rows.now self.now.hits.now load (length self.now.hits.now) end kept.old }
        ensures { let s = sources.now in Least s.curves.most s.symbols.now s.curves.work.now self.now.rows.now self.now.hits.now load end kept.new result }
    {
        let mut least = Words::ABSENT;
        for (j, word) in kept[..self.hits.len()].iter_mut().enumerate() {
            if *word < least {
                if end <= *word % Limits::TIMES {
                    *word = self
                        .at(j)
                        .legal_best(sources, load, end)
                        .unwrap_or(Words::ABSENT);
                }
                least = least.min(*word);
            }
        }
        (least != Words::ABSENT).then_some(least)
    }

    // The curve of the node under a load, stored as the curve with the target's number: its points, latest first. Of more than `most` points, `most`
    // are stored and most + 1 is the answer.
    pub fn curve(
        &self,
        symbols: &[u32],
        work: &mut [u64],
        kept: &mut [u64],
        target: Target,
    ) -> usize
        requires sources { SourcesSafe target.most symbols.now work.old }
        requires at_bound { (target.at < 256) × (target.load ≤ 255) × (length self.now.hits.now ≤ length kept.old) }
        requires above { Above target.at self.now.hits.now }
        requires points_fit { PointsFit target.most symbols.now work.old self.now.rows.now self.now.hits.now target.load }
        ensures { CurveStored target.most symbols.now work.old self.now.rows.now self.now.hits.now target.load target.at work.new result }
    {
        let most = target.most;
        let first = (most + 1) * target.at;
        self.keep_all(&Sources::new(symbols, work, most), kept, target.load);
        let mut end = Limits::TIMES;
        for k in 0..most {
            let sources = Sources::new(symbols, work, most);
            let Some(w) = self.best(&sources, kept, target.load, end) else {
                return k;
            };
            work[first + k] = w;
            end = w % Limits::TIMES;
        }
        let sources = Sources::new(symbols, work, most);
        match self.best(&sources, kept, target.load, end) {
            None => most,
            Some(_) => most + 1,
        }
    }
}
