// treecover on 4,097 bytes, one more than treecover answers.
#![tactic(auto)]

fn main() {
    treecover_text::run();
}
