// Reads a library, a tree and a cover sheet from standard input, and prints the bill of the cover.
#![tactic(auto)]

fn main() {
    bill_text::run();
}
