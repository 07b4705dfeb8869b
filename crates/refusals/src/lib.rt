// The papers' number of each reason for which a call is refused, said here and nowhere else in the code.
#![tactic(auto)]

ghost use Rattle.std.specs.Prelude.{◌≡◌, ◌<◌, ◌≤◌};
ghost use Rattle.fields.specs.Answer.{numbers};
ghost use Rattle.sheets_rules.specs.Report.{library_number, number_of};

use fields::Fault;
use sheets_rules::Reason;

// How far the numbers of the faults of a tree and of a function sheet stand above those of a library's.
#[derive(Clone, Copy)]
struct Above {}

impl Above {
    const TREE: u32 = 10;

    const FUNCTION_SHEET: u32 = 29;
}

// The number of a fault in a library.
#[tactic(auto, unfolding(sheets_rules::specs::Report::library_number))]
fn library_number(fault: Fault) -> u32
    ensures { (result ≡ library_number fault) × (1 ≤ result) × (result ≤ 6) }
{
    match fault {
        Fault::Truncated => 2,
        Fault::Tail => 3,
        Fault::Range => 4,
        Fault::Drawing => 5,
        Fault::Size => 6,
    }
}

// The number of a reason.
#[tactic(auto, unfolding(sheets_rules::specs::Report::tree_number))]
pub fn number(reason: Reason) -> u32
    ensures { (result ≡ number_of reason) × (1 ≤ result) × (result < numbers) }
{
    match reason {
        Reason::Short => 1,
        Reason::Library(fault) => library_number(fault),
        Reason::Tree(fault) => library_number(fault) + Above::TREE,
        Reason::Overfull => 7,
        Reason::NoCover => 8,
        Reason::CoverSheet => 22,
        Reason::Match => 23,
        Reason::Figures => 24,
        Reason::FunctionSheet(fault) => library_number(fault) + Above::FUNCTION_SHEET,
        Reason::Function => 33,
        Reason::Link => 41,
        Reason::Driver => 42,
        Reason::Late => 43,
    }
}
