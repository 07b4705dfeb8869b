// The choice of a cover under a required time, from the curves in the work area.
#![tactic(auto)]

ghost use Rattle.std.specs.Prelude.{◌<◌, ◌≤◌, length, get_or};
ghost use Rattle.sheets_rules.specs.Model.{Shape, Library, Tree};
ghost use Rattle.curves.specs.Inside.Words.{point_limit};
ghost use Rattle.choosing.specs.Inside.Promises.{FirstHit, InputsRead, Prepared, Driven, MatchChosen, Chooses, CoverChosen};

use curves::{Curves, Match, Matches, Sources, Words};
use matching::Hit;
use result_sheets::{CoverRecord, MatchRecord};
use shapes_rules::Packed;
use sheets_rules::{Limits, Slots, TreeRecord};

// What is asked of a node: the load that it drives, the bin of that load and the time by which it is to arrive. At the root, whose load need
// not be that of a bin, bin 0 has the curve.
#[derive(Clone, Copy)]
pub struct Goal {
    pub node: usize,
    pub load: u32,
    pub bin: usize,
    pub time: u32,
}

impl Goal {
    // What stands where nothing is asked.
    const NONE: Goal = Goal {
        node: 0,
        load: 0,
        bin: 0,
        time: 0,
    };
}

// The pattern of a match, its crossing and what is asked of its inputs, in the order of the tree: the first `count` of the goals.
// The array and its count stand side by side: memory is fixed, and there is no heap.
#[derive(Clone, Copy)]
pub struct Inputs {
    pub pattern: u8,
    pub crossing: u8,
    pub count: usize,
    pub goals: [Goal; Slots::PINS],
}

// Which match is the first, in the order of pattern numbers and then of crossing numbers, that reaches the area and the arrival of `w`.
fn first_reaching(matches: &Matches<'_>, sources: &Sources<'_>, load: u32, w: u64) -> Option<usize>
    requires { (load ≤ 255) × (w < point_limit) }
    ensures { let s = sources.now in FirstHit s.curves.most s.symbols.now s.curves.work.now matches.now.rows.now matches.now.hits.now load w result }
{
    let end = w % Limits::TIMES + 1;
    let mut first = None;
    for j in 0..matches.hits.len() {
        if matches.at(j).legal_best(sources, load, end) == Some(w) {
            first = Some(j);
            break;
        }
    }
    first
}

// The inputs of a match, which drives a load and is to arrive by `time`. A pin's delay is taken off the time.
fn read_inputs(one: &Match<'_>, load: u32, time: u32) -> Inputs
    requires { load ≤ 255 }
    ensures { InputsRead one.now.pattern.now one.now.hit.now load time result }
{
    let inputs = one.hit.inputs.as_slice();
    let mut goals = [Goal::NONE; Slots::PINS];
    for (k, input) in inputs.iter().enumerate() {
        let pin = cells::pin_figures(one.pattern, usize::from(input.pin));
        goals[k] = Goal {
            node: usize::from(input.node),
            load: pin.load,
            bin: pin.bin as usize,
            time: time.saturating_sub(cells::delay(pin, load)),
        };
    }
    Inputs {
        pattern: one.hit.pattern,
        crossing: one.hit.crossing,
        count: inputs.len(),
        goals,
    }
}

// The match chosen at a gate: the first that reaches the least area in time and the least arrival with it.
fn choose_match(
    rows: &[u32],
    tree: &TreeRecord,
    found: &mut [Hit],
    curves: &Curves<'_>,
    goal: Goal,
) -> Inputs
    requires { (l : Library) × ((t : Tree) × ((s : Shape) × (Prepared curves.now.most l t rows.now tree.now.symbols tree.now.sizes (length found.old) curves.now.work.now × Driven l t goal s × (get_or tree.now.symbols goal.node 0 < 2)))) }
    ensures { MatchChosen curves.now.most rows.now tree.now.symbols tree.now.sizes found.old curves.now.work.now goal result }
{
    let at = Words::BINS * goal.node + goal.bin;
    // Some cover of the node arrives in time, so its curve has a point by then, and some match reaches that point.
    let Some(w) = curves.look_up(at, u64::from(goal.time) + 1) else {
        unreachable!();
    };
    let count = matching::find_matches(rows, tree, goal.node, found);
    let matches = Matches {
        rows,
        hits: &found[..count],
    };
    let sources = Sources {
        symbols: &tree.symbols,
        curves: *curves,
    };
    let Some(j) = first_reaching(&matches, &sources, goal.load, w) else {
        unreachable!();
    };
    read_inputs(&matches.at(j), goal.load, (w % Limits::TIMES) as u32)
}

// Puts the matches of the cover chosen at a node into a cover, in ascending order of nodes, after those that it has. The nodes in the subtree
// fall from a node to the inputs of its match.
pub fn choose(
    rows: &[u32],
    tree: &TreeRecord,
    found: &mut [Hit],
    curves: &Curves<'_>,
    goal: Goal,
    cover: &mut CoverRecord,
)
    requires { (l : Library) × ((t : Tree) × ((s : Shape) × Chooses curves.now.most l t rows.now tree.now.symbols tree.now.sizes (length found.old) curves.now.work.now goal cover.old s)) }
    ensures { CoverChosen curves.now.most rows.now tree.now.symbols tree.now.sizes found.old curves.now.work.now goal cover.old cover.new }
{
    if Packed::LEAF <= tree.symbols[goal.node] {
        return;
    }
    let inputs = choose_match(rows, tree, found, curves, goal);
    cover.push(MatchRecord {
        node: goal.node as u8,
        pattern: inputs.pattern,
        crossing: inputs.crossing,
    });
    for next in &inputs.goals[..inputs.count] {
        choose(rows, tree, found, curves, *next, cover);
    }
}
