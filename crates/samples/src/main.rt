// The table of samples: standard input is a line for each call, and each is written again with its outcome behind it.
#![tactic(auto)]

mod aboard;
mod bench;
mod lower;
mod shelf;
mod show;
mod single;
mod table;
mod text;

// More bytes than the table has.
const INPUT: usize = 131_072;

fn main() {
    let mut input = [0; INPUT];
    let n = io::read_full(0, &mut input);
    table::run(&input[..n]);
}
