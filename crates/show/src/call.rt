// The public call: an input of two lines becomes the show text. What does not fit is refused before a byte is written.
ghost use Rattle.std.specs.Prelude.{◌≡◌, ◌≤◌, [], length};
ghost use Rattle.rules.specs.Numbers.{rewriter_bytes, selection_bytes, rewrite_room};
ghost use Rattle.show.specs.Answer.{refusal_in, place_in, rounds_in, answer_text, ToSay, left_of, show_left, delivered};

use crate::answer::{make, put_answer};
use names::refusal::{Fault, Refusal};
use names::{REWRITE_ROOM, REWRITER_BYTES, SELECTION_BYTES};
use stretches::clear;

// Measures, and then writes what fits: answers how many bytes that is.
fn deliver(
    out: &mut [u8],
    rounds: Result<usize, Fault>,
    written: &[u8],
    rewritten: &[u8],
) -> Result<usize, Refusal>
    requires { ToSay (refusal_in rounds) (place_in rounds) written.now rewritten.now (rounds_in rounds) }
    ensures { left_of result out.new [] ≡ delivered (answer_text (refusal_in rounds) (place_in rounds) written.now rewritten.now (rounds_in rounds)) out.old [] }
{
    let n = put_answer(&mut out[0..0], 0, rounds, written, rewritten);
    if out.len() < n {
        return Err(Refusal::LongAnswer);
    }
    put_answer(out, 0, rounds, written, rewritten);
    Ok(n)
}

fn show_with(
    input: &[u8],
    out: &mut [u8],
    first: &mut [u8],
    second: &mut [u8],
    room: &mut [u8],
) -> Result<usize, Refusal>
    requires { (length first.old ≡ rewriter_bytes) × (selection_bytes ≤ length second.old) × (rewrite_room ≤ length room.old) }
    ensures { left_of result out.new room.new ≡ show_left input.now out.old room.old }
{
    match make(input, first, second, room) {
        Err(f) => deliver(out, Err(f), &first[0..0], &second[0..0]),
        Ok(m) => {
            let w = m.written;
            let v = m.rewritten;
            deliver(out, Ok(m.rounds), &first[0..w], &second[0..v])
        }
    }
}

// The show text of the input goes to the front of the output: ShortRoom for a short room, LongAnswer where it is longer than the output, else how many
// bytes it has. Refusals of parsing and rewriting are texts. The room ends all zeros. The two stored queries stand on the stack, since one room cannot be lent
// for writing in two parts.
pub fn show(input: &[u8], out: &mut [u8], room: &mut [u8]) -> Result<usize, Refusal>
    ensures { left_of result out.new room.new ≡ show_left input.now out.old room.old }
{
    if room.len() < REWRITE_ROOM {
        clear(room);
        return Err(Refusal::ShortRoom);
    }
    // Stays: no heap, so both are as long as the longest query, and `Made` says how much of each counts; the lent room may not grow by them.
    let mut first = [0u8; REWRITER_BYTES];
    let mut second = [0u8; SELECTION_BYTES];
    show_with(input, out, &mut first, &mut second, room)
}
