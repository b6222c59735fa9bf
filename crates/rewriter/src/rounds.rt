// Rounds, until one changes nothing; and the call.
ghost use Rattle.std.specs.Prelude.{◌≡◌, drop};
ghost use Rattle.rules.specs.Query.{Query};
ghost use Rattle.rules.specs.Checked.{Is};
ghost use Rattle.rules.specs.Rewriting.{rewrite, result_of, count_of};
ghost use Rattle.rules.specs.Answers.{zeros};
ghost use Rattle.round.specs.Once.{Room};
ghost use Rattle.rewriter.specs.Rounds.{Settled, Rewrites};

use measures::weight;
use names::REWRITE_ROOM;
use names::refusal::Refusal;
use places::place::shift;
use round::once::rewrite_once;
use stored::read::for_rewriting;
use stretches::{clear, copy};

// The two ways of rewriting, as `rules/specs/Rewriting` names them.
// Stays: the definitions take a Bool, and so does C, in `probe_rewrite_and_select`; an enum would be turned into it and back and say no more.
pub const ORIGINAL: bool = false;

pub const STRICT: bool = true;

// The bytes of what was rewritten, and the rounds that it took.
#[derive(Clone, Copy)]
pub struct Rounds {
    pub len: usize,
    pub rounds: usize,
}

// The query stands from `at` on, and what is left of it ends up at the front. A round lowers the weight, or changes nothing and is the last.
fn rewrite_all(room: &mut [u8], at: usize, strict: bool) -> Rounds
    requires { Room at room.old }
    ensures { (q : Query) → Is (drop at room.old) q → Settled (result_of (rewrite strict q)) (count_of (rewrite strict q)) result.len result.rounds room.new }
{
    // Stays: `made` is the answer and no index, and when the loop ends is known only after a round.
    let mut t = at;
    let mut made: usize = 0;
    let mut left = weight(&room[at..]);
    loop {
        let m = rewrite_once(room, t, strict);
        made += 1;
        let w = weight(&room[0..m]);
        if w == left {
            return Rounds {
                len: m,
                rounds: made,
            };
        }
        t = room.len() - m;
        shift(room, t, 0, m);
        left = w;
    }
}

// The answer of `rewrite`, and what it lays in the output: the room is still to be cleared.
fn rewrite_into(
    strict: bool,
    query: &[u8],
    out: &mut [u8],
    room: &mut [u8],
) -> Result<Rounds, Refusal>
    ensures { Rewrites strict query.now out.old room.old result out.new (zeros room.old) }
{
    if room.len() < REWRITE_ROOM {
        return Err(Refusal::ShortRoom);
    }
    for_rewriting(query)?;
    let at = room.len() - query.len();
    copy(room, at, query);
    let a = rewrite_all(room, at, strict);
    if out.len() < a.len {
        return Err(Refusal::LongAnswer);
    }
    copy(out, 0, &room[0..a.len]);
    Ok(a)
}

// Rewrites a stored query, strictly or as the original does: ShortRoom first, then what reading refuses, then LongAnswer where the answer is longer than the output. The room ends all zeros.
pub fn rewrite(
    strict: bool,
    query: &[u8],
    out: &mut [u8],
    room: &mut [u8],
) -> Result<Rounds, Refusal>
    ensures { Rewrites strict query.now out.old room.old result out.new room.new }
{
    let answer = rewrite_into(strict, query, out, room);
    clear(room);
    answer
}
