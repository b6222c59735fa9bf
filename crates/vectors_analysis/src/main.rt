// Runs the fixed list of tokens (tests/original/lists/tokens.txt, on standard input).
#![tactic(auto)]

use std::io;
use vectors::List;

fn main(rt: HostRuntime) -> io::Result<()> {
    vectors::run(&rt, List::Tokens, b" texts agree\n")
}
