// bill on an input of 4,097 bytes, the first 4,096 of which are what their lengths say.
#![tactic(auto)]

fn main() {
    bill_text::run();
}
