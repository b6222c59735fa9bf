// Runs the fixed list of rewriting (tests/original/lists/rewrite.txt, on standard input).
#![tactic(auto)]

use std::io;
use vectors::List;

fn main(rt: HostRuntime) -> io::Result<()> {
    vectors::run(&rt, List::Rewriting, b" queries equal\n")
}
