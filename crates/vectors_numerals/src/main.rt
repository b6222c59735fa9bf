// Runs the fixed list of numerals (tests/original/lists/numerals.txt, on standard input).
#![tactic(auto)]

use std::io;
use vectors::List;

fn main(rt: HostRuntime) -> io::Result<()> {
    vectors::run(&rt, List::Numerals, b" numerals equal\n")
}
