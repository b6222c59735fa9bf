// Runs the fixed lists of parsing (tests/original/lists/parse.txt, then document.txt, on standard input).
#![tactic(auto)]

use std::io;
use vectors::List;

fn main(rt: HostRuntime) -> io::Result<()> {
    vectors::run(&rt, List::Parsing, b" texts equal\n")
}
