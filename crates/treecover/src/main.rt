// Reads a library and a tree from standard input, and prints the cover of the tree by the library's cells.
#![tactic(auto)]

fn main() {
    treecover_text::run();
}
