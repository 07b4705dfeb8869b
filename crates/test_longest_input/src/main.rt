// treecover on 4,096 bytes, the most that treecover answers: the library's length is all that is left, so a byte lost shows.
#![tactic(auto)]

fn main() {
    treecover_text::run();
}
