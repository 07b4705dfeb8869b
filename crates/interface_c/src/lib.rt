// The static library for C: each exported function is that of the crate `interface`, with the same clauses. See include/treecover.h.
// Each is the twin of its namesake, which stays in a library of its own with its clauses and edits: C needs the names here.
#![tactic(auto)]

ghost use Rattle.std.specs.Prelude.{◌≡◌};
ghost use Rattle.fields.specs.Answer.{on_success, word, of_word};
ghost use Rattle.sheets_rules.specs.Report.{library_word, of_library_word, library_report, tree_report};
ghost use Rattle.functions_rules.specs.Report.{functions_report};
ghost use Rattle.functions_rules.specs.Demands.{FunctionDemands};
ghost use Rattle.map_rules.specs.Public.{Maps, Lists};
ghost use Rattle.judge_rules.specs.Judgement.{judgement, point_word, of_point_word};
ghost use Rattle.judge_rules.specs.Public.{Judges};
ghost use Rattle.part_rules.specs.Public.{MapsPart};

// Judges a library: cells × 256 + patterns, or the refusal.
#[unsafe(no_mangle)]
pub extern "C" fn treecover_judge_library(library: &[u8]) -> u64
    ensures { result ≡ word (on_success library_word (library_report library.now)) }
{
    interface::treecover_judge_library(library)
}

// Judges the functions of a library's drawings: cells × 256 + patterns, or the refusal.
#[unsafe(no_mangle)]
pub extern "C" fn treecover_judge_functions(library: &[u8], functions: &[u8]) -> u64
    ensures value { result ≡ word (on_success library_word (functions_report library.now functions.now)) }
    ensures function_demands { FunctionDemands library.now functions.now (on_success of_library_word (of_word result)) }
{
    interface::treecover_judge_functions(library, functions)
}

// Judges a tree: its node count, or the refusal.
#[unsafe(no_mangle)]
pub extern "C" fn treecover_judge_tree(tree: &[u8]) -> u64
    ensures { result ≡ word (tree_report tree.now) }
{
    interface::treecover_judge_tree(tree)
}

// Maps a tree: the bytes of the cover sheet in the output, or the refusal.
#[unsafe(no_mangle)]
pub extern "C" fn treecover_map(
    library: &[u8],
    tree: &[u8],
    output: &mut [u8],
    work: &mut [u64],
) -> u64
    ensures { Maps library.now tree.now output.old output.new work.old work.new (of_word result) }
{
    interface::treecover_map(library, tree, output, work)
}

// Lists the trade-offs of a tree's root: the bytes of the list sheet in the output, or the refusal.
#[unsafe(no_mangle)]
pub extern "C" fn treecover_list(
    library: &[u8],
    tree: &[u8],
    output: &mut [u8],
    work: &mut [u64],
) -> u64
    ensures { Lists library.now tree.now output.old output.new work.old work.new (of_word result) }
{
    interface::treecover_list(library, tree, output, work)
}

// Judges a cover sheet: 2^63 + area × 2^24 + arrival, or the refusal.
#[unsafe(no_mangle)]
pub extern "C" fn treecover_judge_cover(library: &[u8], tree: &[u8], cover: &[u8]) -> u64
    ensures value { result ≡ point_word (judgement library.now tree.now cover.now) }
    ensures judges { Judges library.now tree.now cover.now (of_point_word result) }
{
    interface::treecover_judge_cover(library, tree, cover)
}

// Maps the trees of a part: the bytes of their cover sheets in the output, or the refusal with its tree.
#[unsafe(no_mangle)]
pub extern "C" fn treecover_map_part(
    library: &[u8],
    part: &[u8],
    output: &mut [u8],
    work: &mut [u64],
) -> u64
    ensures { MapsPart library.now part.now output.old output.new work.old work.new (of_word result) }
{
    interface::treecover_map_part(library, part, output, work)
}
