// The show program: reads a line of setup and a line of text from standard input, and writes the show text to standard output.
#![tactic(auto)]

use inputs::read_full;
use names::REWRITE_ROOM;
use show::call::show;
use std::io::{self, Write};

fn write(rt: &HostRuntime, out: &[u8], n: usize) -> io::Result<()> {
    if n <= out.len() {
        rt.stdout().write_all(&out[0..n])?;
    }
    Ok(())
}

// About twice as long as the longest text that 1,024 bytes can ask for. That is an estimate and no theorem: past it the call would refuse
// with LongAnswer, and nothing would be written.
const SHOWN_MOST: usize = 262144;

fn run(rt: &HostRuntime, input: &[u8], out: &mut [u8]) -> io::Result<()> {
    // Stays: the room that `show` is lent, of fixed memory; no part of it counts.
    let mut room = [0u8; REWRITE_ROOM];
    match show(input, out, &mut room) {
        Err(_) => Ok(()),
        Ok(n) => write(rt, out, n),
    }
}

fn run_on(rt: &HostRuntime, input: &[u8]) -> io::Result<()> {
    // Stays: fixed memory and no heap: `show` writes to a lent slice, and answers how much of it counts.
    let mut out = [0u8; SHOWN_MOST];
    run(rt, input, &mut out)
}

// The first 1,062 bytes decide the text: a first line over 36 bytes is refused, and so is a second line over 1,024, whatever follows. The crate `show`
// has that as a theorem, `prefix`.
const INPUT_MOST: usize = 2048;

fn main(rt: HostRuntime) -> io::Result<()> {
    // Stays: fixed memory and no heap; what counts of it is handed on as a slice.
    let mut input = [0u8; INPUT_MOST];
    let n = read_full(&mut rt.stdin(), &mut input)?;
    run_on(&rt, &input[..n])
}
