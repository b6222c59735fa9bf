// Runs a fixed list of the original's answers, which stands on standard input, a case to a line, and holds the calls to it. Each `vectors_*`
// is a program that runs one list. It writes how many lines agree, or the first that differs.
#![tactic(auto)]

ghost use Rattle.std.specs.Prelude.{◌≡◌, length};

use inputs::read_full;
use std::io::{self, Write};

// Stays: what a line says is decoded into arrays on the stack, as far as a length says, for there is no heap here either.
mod line;
mod numerals;
mod parsing;
mod rewriting;
mod tokens;

// What a line of the list is about.
#[derive(Clone, Copy)]
pub enum List {
    Tokens,
    Numerals,
    Parsing,
    Rewriting,
}

const INPUT_MOST: usize = 524288;

fn agrees(list: List, line: &[u8]) -> bool {
    match list {
        List::Tokens => tokens::agrees(line),
        List::Numerals => numerals::agrees(line),
        List::Parsing => parsing::agrees(line),
        List::Rewriting => rewriting::agrees(line),
    }
}

// An empty line is no comment, and agrees with nothing.
fn is_comment(line: &[u8]) -> bool {
    line.first() == Some(&b'#')
}

fn tell_difference(rt: &HostRuntime, line: &[u8]) -> io::Result<()> {
    rt.stdout().write_all(b"differs: ")?;
    rt.stdout().write_all(line)?;
    rt.stdout().write_all(b"\n")
}

fn tell_count(rt: &HostRuntime, n: u64, agree: &[u8]) -> io::Result<()> {
    print!(rt; "{n}")?;
    rt.stdout().write_all(agree)
}

fn run_lines(rt: &HostRuntime, list: List, s: &[u8], agree: &[u8]) -> io::Result<()> {
    // Stays: `split` gives an empty line behind the last line end, and one of an empty list, which agree with nothing.
    let mut n: u64 = 0;
    let mut at: usize = 0;
    while at < s.len() {
        let end = line::part_end(s, at, b'\n');
        if !is_comment(&s[at..end]) {
            if !agrees(list, &s[at..end]) {
                return tell_difference(rt, &s[at..end]);
            }
            n += 1;
        }
        at = end + 1;
    }
    tell_count(rt, n, agree)
}

// The buffer for a list. Lending it as a slice asks for its length alone.
fn empty_input() -> [u8; INPUT_MOST]
    ensures { INPUT_MOST ≡ length result }
{
    [0u8; INPUT_MOST]
}

fn run_in(rt: &HostRuntime, list: List, input: &mut [u8], agree: &[u8]) -> io::Result<()> {
    let n = read_full(&mut rt.stdin(), input)?;
    if n == INPUT_MOST {
        return rt.stdout().write_all(b"the list is too long\n");
    }
    run_lines(rt, list, &input[..n], agree)
}

// `agree` is what to write behind the number of lines that agree.
pub fn run(rt: &HostRuntime, list: List, agree: &[u8]) -> io::Result<()> {
    let mut input = empty_input();
    run_in(rt, list, &mut input, agree)
}
