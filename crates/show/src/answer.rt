// What an input asks to be shown: its query as written and as rewritten, or its refusal. And the text of that.
ghost use Rattle.std.specs.Prelude.{◌≡◌, ◌≤◌, length};
ghost use Rattle.rules.specs.Numbers.{rewriter_bytes, selection_bytes, rewrite_room};
ghost use Rattle.rules.specs.Answers.{zeros};
ghost use Rattle.show.specs.Lays.{Lays};
ghost use Rattle.names.specs.Refusals.{numbered};
ghost use Rattle.show.specs.Answer.{shown_refusal, refusal_in, place_in, rounds_in, written_by, rewritten_by, rounds_by, refusal_text, answer_text, ToSay, Makes};

use crate::lines::parse_lines;
use crate::put::{put, put_decimal};
use crate::query::show_query;
use names::NO_TAG;
use names::refusal::{Fault, Refusal};
use rewriter::rounds::{ORIGINAL, rewrite};

// The bytes of the query as written, and as rewritten; the rounds.
// Stays: lengths and no slices: a slice would keep both stretches lent, and the caller reads them both behind the call, as the clause `makes` says.
#[derive(Drop)]
pub struct Made {
    pub written: usize,
    pub rewritten: usize,
    pub rounds: usize,
}

// A query that is too long for its stretch is too long to be rewritten.
fn refused(f: Fault) -> Fault
    ensures { (numbered result.refusal ≡ shown_refusal (numbered f.refusal)) × (result.place ≡ f.place) }
{
    if f.refusal == Refusal::LongAnswer {
        return Fault {
            refusal: Refusal::LongQuery,
            place: f.place,
        };
    }
    f
}

// What the rewriter refuses has no place in the text.
fn unplaced(e: Refusal) -> Fault
    ensures { (result.refusal ≡ e) × (result.place ≡ 0) }
{
    Fault {
        refusal: e,
        place: 0,
    }
}

// The query as written goes to the front of `first`, which is as long as the rewriter accepts, and its rewriting to the front of `second`.
pub fn make(
    input: &[u8],
    first: &mut [u8],
    second: &mut [u8],
    room: &mut [u8],
) -> Result<Made, Fault>
    requires { (length first.old ≡ rewriter_bytes) × (selection_bytes ≤ length second.old) × (rewrite_room ≤ length room.old) }
    ensures makes { Makes input.now (refusal_in result) (place_in result) (written_by result) first.new (rewritten_by result) second.new (rounds_by result) }
    ensures room_after { room.new ≡ zeros room.old }
{
    let n = parse_lines(input, first, room).map_err(refused)?;
    let a = rewrite(ORIGINAL, &first[0..n], second, room).map_err(unplaced)?;
    Ok(Made {
        written: n,
        rewritten: a.len,
        rounds: a.rounds,
    })
}

fn put_refusal(out: &mut [u8], at: usize, f: Fault) -> usize
    ensures { Lays out.old at (refusal_text (numbered f.refusal) f.place) result out.new }
{
    let number = u8::from(f.refusal);
    let p = put(out, at, b"refused ");
    let q = put_decimal(out, p, number as usize);
    let r = put(out, q, b" ");
    let s = put_decimal(out, r, f.place);
    put(out, s, b"\n")
}

// The rounds, or what is refused: then both queries are empty.
pub fn put_answer(
    out: &mut [u8],
    at: usize,
    rounds: Result<usize, Fault>,
    written: &[u8],
    rewritten: &[u8],
) -> usize
    requires { ToSay (refusal_in rounds) (place_in rounds) written.now rewritten.now (rounds_in rounds) }
    ensures { Lays out.old at (answer_text (refusal_in rounds) (place_in rounds) written.now rewritten.now (rounds_in rounds)) result out.new }
{
    match rounds {
        Err(f) => put_refusal(out, at, f),
        Ok(n) => {
            let p = put(out, at, b"written\n");
            let q = show_query(out, p, 0, NO_TAG, written);
            let r = put(out, q, b"rewritten ");
            let s = put_decimal(out, r, n);
            let t = put(out, s, b"\n");
            show_query(out, t, 0, NO_TAG, rewritten)
        }
    }
}
