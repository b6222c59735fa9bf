// Selection with what the rewriter makes of a query, in one call: what it lists is said of the query as written. The rewritten query is held in
// a room of its own, since two parts of one slice cannot be lent for writing at the same time.
#![tactic(auto)]

ghost use Rattle.std.specs.Prelude.{◌≤◌, length};
ghost use Rattle.rules.specs.Answers.{zeros};
ghost use Rattle.rewritten_selection.specs.Choice.{held_room, refusal_of, count_of, rounds_of, Chooses, Demanded};

use names::refusal::Refusal;
use rewriter::rounds::rewrite;
use selection::select::select;
use stretches::clear;

// What a rewritten query can take, as `specs/Choice` says.
pub const HELD_ROOM: usize = 38229;

// How many records were chosen, and the rounds that the rewriting took.
#[derive(Clone, Copy)]
pub struct Choice {
    pub count: usize,
    pub rounds: usize,
}

// The two calls, one after the other: the room that holds the rewritten query is still to be cleared.
fn select_rewritten(
    strict: bool,
    query: &[u8],
    list: &[u8],
    rows: &mut [u32],
    held: &mut [u8],
    room: &mut [u8],
) -> Result<Choice, Refusal>
    requires { held_room ≤ length held.old }
    ensures { Chooses strict query.now list.now rows.old held.old room.old result rows.new (zeros held.old) room.new }
{
    let a = rewrite(strict, query, held, room)?;
    let count = select(&held[0..a.len], list, rows)?;
    Ok(Choice {
        count,
        rounds: a.rounds,
    })
}

// The rewriting is strict or as the original's. Refuses as the two calls do, one after the other: ShortRoom for either room, then what the rewriter refuses in the query, what selection refuses in the list,
// and LongAnswer where the rows are too short. A refusal leaves the rows; both rooms end all zeros.
pub fn rewrite_and_select(
    strict: bool,
    query: &[u8],
    list: &[u8],
    rows: &mut [u32],
    held: &mut [u8],
    room: &mut [u8],
) -> Result<Choice, Refusal>
    ensures answer { Chooses strict query.now list.now rows.old held.old room.old result rows.new held.new room.new }
    ensures demand { Demanded strict query.now list.now rows.old held.old room.old
        (refusal_of result) (count_of result) (rounds_of result) rows.new }
{
    if held.len() < HELD_ROOM {
        clear(held);
        clear(room);
        return Err(Refusal::ShortRoom);
    }
    let answer = select_rewritten(strict, query, list, rows, held, room);
    clear(held);
    answer
}
