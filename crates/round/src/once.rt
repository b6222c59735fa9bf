// One round, children first, in place: the query stands at the end of the lent room, and its rewriting is laid at the front.
// What is laid never passes what is still to be read: there is a byte of space before the query for each of its clauses, and a round
// raises bytes and clauses together never. A nested query is lent its own stretch, from where its rewriting goes up to where it ends.
ghost use Rattle.std.specs.Prelude.{drop};
ghost use Rattle.rules.specs.Query.{Query, Clauses};
ghost use Rattle.rules.specs.Stored.{encode};
ghost use Rattle.rules.specs.Checked.{Is, Are};
ghost use Rattle.rules.specs.Rewriting.{rewrite_once};
ghost use Rattle.places.specs.Within.{Stands};
ghost use Rattle.round.specs.Once.{Room, Rooms, Rewritten};

use crate::clauses::is_needed;
use crate::over::{finish_boost, phrase_over, put_none, rewrite_boolean, score_over};
use names::{
    BOOLEAN_FRONT, BOOLEAN_TAG, BOOST_FRONT, BOOST_TAG, CONSTANT_SCORE_TAG, HEADER, MATCH_NONE_TAG,
    PHRASE_TAG,
};
use numbers::{big2, big4};
use parts::write::put_header;
use places::ends::end_of;
use places::place::shift;

// Where a Boolean's minimum stands.
const LEAST: usize = HEADER + HEADER;

// The clauses from `at` on, each after its own round, without those that are MatchNone: where they end, or none where one ends the Boolean.
#[cycle(rewrite_clauses_rewrite_once)]
fn rewrite_clauses(room: &mut [u8], at: usize, strict: bool) -> Option<usize>
    requires { Rooms at room.old }
    ensures { (cs : Clauses) → Are (drop at room.old) cs → Rewritten strict room.old result room.new cs }
{
    // Stays: the clauses stand in the room that is written, so that no iterator can lend them; each ends where its header says.
    let mut t = at;
    let mut w = 0;
    while t < room.len() {
        let k = room[t];
        let e = end_of(room, t);
        let n = rewrite_once(&mut room[w + HEADER..e], t - w, strict);
        if room[w + HEADER] != MATCH_NONE_TAG {
            put_header(room, w, k, n);
            w += HEADER + n;
        } else if is_needed(k) {
            return None;
        }
        t = e;
    }
    Some(w)
}

// The query from `at` on.
#[cycle(rewrite_clauses_rewrite_once)]
pub fn rewrite_once(room: &mut [u8], at: usize, strict: bool) -> usize
    requires { Room at room.old }
    ensures { (q : Query) → Is (drop at room.old) q → Stands 0 room.old result (encode (rewrite_once strict q)) room.new }
{
    match room[at] {
        PHRASE_TAG => phrase_over(room, at),
        BOOLEAN_TAG => {
            let least = big2(&room[at + LEAST..]);
            match rewrite_clauses(&mut room[BOOLEAN_FRONT..], at, strict) {
                Some(w) => rewrite_boolean(room, BOOLEAN_FRONT + w, least, strict),
                None => put_none(room),
            }
        }
        BOOST_TAG => {
            let b = big4(&room[at + HEADER..]);
            let n = rewrite_once(&mut room[BOOST_FRONT..], at, strict);
            finish_boost(room, n, b)
        }
        CONSTANT_SCORE_TAG => {
            let n = rewrite_once(&mut room[HEADER..], at, strict);
            score_over(room, n)
        }
        _ => {
            let n = room.len() - at;
            shift(room, 0, at, n);
            n
        }
    }
}
