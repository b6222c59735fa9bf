// Whether a stored query is true of a record: a walk through the query from the left, with a row of the Booleans that are open. It does not
// call itself, however deep the query is.
ghost use Rattle.std.specs.Prelude.{◌≡◌, ◌<◌, ◌≤◌, true, ◌&&◌, ◌||◌, List, length, eqb};
ghost use Rattle.rules.specs.Numbers.{should_tag, must_not_tag, selection_bytes, selection_depth};
ghost use Rattle.rules.specs.Bytes.{every, each};
ghost use Rattle.rules.specs.Checked.{Stored, StoredClauses};
ghost use Rattle.rules.specs.Lists.{is_entry, entry_of, Entry};
ghost use Rattle.rules.specs.Matching.{matches};
ghost use Rattle.entries.specs.Slots.{Told};
ghost use Rattle.matching.specs.Level.{carries};
ghost use Rattle.matching.specs.Truth.{is_open, IsLeaf, Truth, StoredFor, cut, Open, outcome, AtClause, At, Leads, Idle, Past, Known};

use super::level::Level;
use super::phrase::phrase_true;
use super::range::range_true;
use super::record::Record;
use super::term::{term_missing, term_true};
use names::{
    BOOLEAN_FRONT, BOOLEAN_TAG, BOOST_FRONT, BOOST_TAG, CONSTANT_SCORE_TAG, FLOAT_RANGE_TAG,
    HEADER, MATCH_ALL_TAG, MUST_NOT_TAG, NO_TAG, PHRASE_TAG, SHOULD_TAG, TERM_TAG, WHOLE_RANGE_TAG,
};
use numbers::big2;
use parts::part::{body, rest, size_of, tag_of};
use std::ops::ControlFlow;

// Where the number of a Boolean's minimum stands: behind its header and that of the minimum.
const MINIMUM_AT: usize = HEADER + HEADER;

const OPEN_LEAST: usize = BOOLEAN_FRONT + 1;

// A query inside so many Booleans, from `at` to `end`.
#[derive(Clone, Copy)]
pub struct Place {
    depth: usize,
    at: usize,
    end: usize,
}

// The walk goes on to a query, or ends with the answer.
type Next = ControlFlow<bool, Place>;

// Stays: `Known` and the limits stand in the contracts below. A ghost field has to be a fact with one proof, and `Known` has several; the row is
// lent for writing, and a struct around it would have to keep its facts at each write.

fn leaf_true(q: &[u8], r: &Record) -> bool
    requires { Stored q.now × IsLeaf q.now × Known r.now }
    ensures { Truth q.now (each entry_of r.now.entries.now) result }
{
    match tag_of(q) {
        TERM_TAG => term_true(q, r),
        PHRASE_TAG => phrase_true(q, r),
        MATCH_ALL_TAG => true,
        WHOLE_RANGE_TAG => range_true(false, q, r),
        FLOAT_RANGE_TAG => range_true(true, q, r),
        _ => false,
    }
}

// To the clause that stands at `at` in the Boolean l, inside `depth` others.
fn clause(q: &[u8], row: &mut [Level], depth: usize, at: usize, l: Level) -> Next
    requires { AtClause q.now row.old depth at l.end × (length q.now ≤ selection_bytes) × (selection_depth ≤ length row.old) }
    ensures { (es : List Entry) (t : AtClause q.now row.old depth at l.end)
        → Leads es q.now row.new at (outcome es t.around (carries es l.asked l.met t.clauses)) result }
{
    let t = &q[at..usize::from(l.end)];
    row[depth] = Level {
        kind: tag_of(t),
        ..l
    };
    let next = at + HEADER;
    Next::Continue(Place {
        depth: depth + 1,
        at: next,
        end: next + size_of(t),
    })
}

// ---- clauses that change nothing

// A Should, in a Boolean that asks for no more of them and has met what it needs.
fn is_spare(over: bool, tag: u8) -> bool
    ensures { result ≡ (over && eqb tag should_tag) }
{
    over && tag == SHOULD_TAG
}

// A Should or a MustNot, where its query is false.
fn is_optional(tag: u8) -> bool
    ensures { result ≡ (eqb tag should_tag || eqb tag must_not_tag) }
{
    tag == SHOULD_TAG || tag == MUST_NOT_TAG
}

// Whether the clause at the front is known to change nothing: a spare one, or an optional one of a term that the slots say is missing.
fn is_idle(t: &[u8], over: bool, r: &Record) -> bool
    requires { StoredClauses t.now × (0 < length t.now) × Known r.now }
    ensures { result ≡ true → Idle (each entry_of r.now.entries.now) over t.now }
{
    let kind = tag_of(t);
    if is_spare(over, kind) {
        return true;
    }
    if r.slots.len() == 0 {
        return false;
    }
    if !is_optional(kind) {
        return false;
    }
    let q = body(t);
    if tag_of(q) != TERM_TAG {
        return false;
    }
    term_missing(q, r)
}

// The place of the first clause from `at` on that may change something, or the end. `over` says that the Boolean is true with no clause left.
fn past_idle(q: &[u8], at: usize, end: usize, over: bool, r: &Record) -> usize
    requires { StoredClauses (cut q.now at end) × (at ≤ end) × (end ≤ length q.now) × Known r.now }
    ensures { Past (each entry_of r.now.entries.now) q.now at end over result }
{
    let mut t = &q[at..end];
    while t.len() > 0 {
        if !is_idle(t, over, r) {
            break;
        }
        t = rest(t);
    }
    end - t.len()
}

// From the end of a query that is true or not: to the next clause of the innermost Boolean that has one and is not decided.
fn settle(q: &[u8], r: &Record, row: &mut [Level], depth: usize, at: usize, known: bool) -> Next
    requires { Open q.now row.old depth at × Known r.now × (length q.now ≤ selection_bytes) × (selection_depth ≤ length row.old) }
    ensures { (o : Open q.now row.old depth at)
        → Leads (each entry_of r.now.entries.now) q.now row.new at (outcome (each entry_of r.now.entries.now) o known) result }
{
    let mut e = at;
    let mut y = known;
    for d in (0..depth).rev() {
        let l = row[d];
        let end = usize::from(l.end);
        if l.allows(y) {
            let m = l.answered(y);
            let over = m.is_over();
            let p = past_idle(q, e, end, over, r);
            if p < end {
                return clause(q, row, d, p, m);
            }
            e = end;
            y = over;
        } else {
            e = end;
            y = false;
        }
    }
    Next::Break(y)
}

// A Boolean with clauses. One with none is false, whatever its minimum is, and is asked as a leaf.
fn is_open(x: &[u8]) -> bool
    requires { 1 ≤ length x.now }
    ensures { result ≡ is_open x.now }
{
    tag_of(x) == BOOLEAN_TAG && x.len() >= OPEN_LEAST
}

// Into the Boolean at this place: to its first clause.
fn enter(q: &[u8], row: &mut [Level], p: Place) -> Next
    requires { At q.now row.old p.depth p.at p.end × (is_open (cut q.now p.at p.end) ≡ true)
        × (length q.now ≤ selection_bytes) × (selection_depth ≤ length row.old) }
    ensures { (es : List Entry) (t : At q.now row.old p.depth p.at p.end)
        → Leads es q.now row.new p.at (outcome es t.around (matches es t.query)) result }
{
    let x = &q[p.at..p.end];
    let asked = big2(&x[MINIMUM_AT..]);
    let l = Level {
        end: p.end as u16,
        asked: asked as u16,
        met: false,
        kind: NO_TAG,
    };
    clause(q, row, p.depth, p.at + BOOLEAN_FRONT, l)
}

// From the query at hand.
fn step(q: &[u8], r: &Record, row: &mut [Level], p: Place) -> Next
    requires { At q.now row.old p.depth p.at p.end × Known r.now × (length q.now ≤ selection_bytes) × (selection_depth ≤ length row.old) }
    ensures { (t : At q.now row.old p.depth p.at p.end)
        → Leads (each entry_of r.now.entries.now) q.now row.new p.at
        (outcome (each entry_of r.now.entries.now) t.around (matches (each entry_of r.now.entries.now) t.query)) result }
{
    let x = &q[p.at..p.end];
    if is_open(x) {
        return enter(q, row, p);
    }
    match tag_of(x) {
        BOOST_TAG => Next::Continue(Place {
            at: p.at + BOOST_FRONT,
            ..p
        }),
        CONSTANT_SCORE_TAG => Next::Continue(Place {
            at: p.at + HEADER,
            ..p
        }),
        _ => {
            let y = leaf_true(x, r);
            settle(q, r, row, p.depth, p.end, y)
        }
    }
}

// Where there are slots, the entries of the record, whose front is at `from` in its list, are noted in them. The row is the caller's, so that it is
// made once for all records.
pub fn holds(q: &[u8], rec: &[u8], from: usize, slots: &[u16], row: &mut [Level]) -> bool
    requires { StoredFor q.now × (every is_entry rec.now ≡ true) × Told slots.now from rec.now × (selection_depth ≤ length row.old) }
    ensures { Truth q.now (each entry_of rec.now) result }
{
    let r = Record {
        entries: rec,
        from,
        slots,
    };
    let mut p = Place {
        depth: 0,
        at: 0,
        end: q.len(),
    };
    loop {
        match step(q, &r, row, p) {
            Next::Break(y) => return y,
            Next::Continue(next) => p = next,
        }
    }
}
