// treecover on no input at all.
#![tactic(auto)]

fn main() {
    treecover_text::run();
}
