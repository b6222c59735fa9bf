// The merging of clauses, in their place: the first clause is kept and goes once over those behind it; what it stands for it takes up, boost by boost
// in clause order, and what lies between is moved over what was taken up. Then the next of those that are left.
// A merged clause travels as base, kind and its running float sum.
ghost use Rattle.std.specs.Prelude.{◌≡◌, ◌++◌, ◌+◌, ◌-◌, ◌<◌, ◌≤◌, length, leb};
ghost use Rattle.rules.specs.Numbers.{boost_tag};
ghost use Rattle.rules.specs.Bytes.{big, part};
ghost use Rattle.rules.specs.Query.{Kind, Query, Clauses};
ghost use Rattle.rules.specs.Stored.{kind_tag, encodes};
ghost use Rattle.rules.specs.Checked.{Is, Are, Stored, StoredClauses};
ghost use Rattle.rules.specs.Floats.{widened};
ghost use Rattle.rules.specs.Rewriting.{summable, stands_for, base, boost_of};
ghost use Rattle.rules.specs.Eating.{held, merged_clauses};
ghost use Rattle.numbers.specs.Laid.{Put};
ghost use Rattle.places.specs.Within.{within, Stands};
ghost use Rattle.merging.specs.Signatures.{cells_of, Noted, Alone};
ghost use Rattle.merging.specs.Merge.{Eats, Fed, First, Eatable, Ate, reboosted_bytes, merged_size, Way, Mergeable, few, how_many};

use crate::signatures::{TABLE, is_alone, note, signature};
use floats::sums::{add, as_sum, is_one, rounded_bits};
use names::{BOOST_BYTES, BOOST_FRONT, BOOST_TAG, FILTER_TAG, HEADER, MUST_TAG, SHOULD_TAG};
use numbers::{big4, put_big4};
use parts::part::{body, rest};
use parts::write::put_header;
use places::ends::end_of;
use places::place::shift;
use stretches::same;

// So many clauses are compared with no table.
const FEW: usize = 12;

// Before a boosted clause's base stand a header, a boost's header and its bits.
const BITS: usize = HEADER + HEADER;

const BOOSTED_FRONT: usize = HEADER + BOOST_FRONT;

// The bits of the boost 1.
const ONE: u32 = 0x3f80_0000;

// A query with one outer boost taken off.
// Stays: `Stored` is a query with its proof; a ghost field that holds one wants a law over all queries that two such proofs are one, longer than these six clauses.
fn base(q: &[u8]) -> &[u8]
    requires { Stored q.now }
    ensures { (x : Query) → Is q.now x → Is result.now (base x) }
{
    if q[0] == BOOST_TAG {
        &q[BOOST_FRONT..]
    } else {
        q
    }
}

fn boost_of(q: &[u8]) -> u32
    requires { Stored q.now }
    ensures { (x : Query) → Is q.now x → widened result ≡ boost_of x }
{
    if q[0] == BOOST_TAG {
        big4(&q[HEADER..])
    } else {
        ONE
    }
}

// A merged clause: where its base stands, its kind, its running sum.
#[derive(Clone, Copy)]
pub struct Merged {
    pub base: usize,
    // Stays: a kind is the tag that is read and laid again; an enum would be made of that byte and turned into it within one turn of the loop.
    pub kind: u8,
    pub sum: f64,
}

// Where the clauses that were left begin, and the sum with those that were taken up.
#[derive(Clone, Copy)]
struct Eaten {
    from: usize,
    sum: f64,
}

// Lays a clause at w: what stands from b up to e.
// Stays: b and e are places of the room that is written, which cannot be lent beside it as a slice.
fn put_clause(room: &mut [u8], w: usize, kind: u8, b: usize, e: usize) -> usize
    requires { (b ≤ e) × (e ≤ length room.old) × (w + 3 + (e - b) ≤ length room.old) × (e - b < 65536) }
    ensures { Put room.old w (part kind (within b e room.old)) result room.new }
{
    let n = e - b;
    let r = shift(room, w + HEADER, b, n);
    put_header(room, w, kind, n);
    r
}

// The same with a boost.
fn put_boosted(room: &mut [u8], w: usize, kind: u8, bits: u32, b: usize, e: usize) -> usize
    requires { (b ≤ e) × (e ≤ length room.old) × (w + 10 + (e - b) ≤ length room.old) × (7 + (e - b) < 65536) }
    ensures { Put room.old w (part kind (part boost_tag (big 4 bits ++ within b e room.old))) result room.new }
{
    let n = e - b;
    let r = shift(room, w + BOOSTED_FRONT, b, n);
    put_big4(room, w + BITS, bits);
    put_header(room, w + HEADER, BOOST_TAG, BOOST_BYTES + n);
    put_header(room, w, kind, BOOST_FRONT + n);
    r
}

// Lays a merged clause at w: its base ends at e. The boost is put back where the sum is not 1.
fn put_merged(room: &mut [u8], w: usize, m: Merged, e: usize) -> usize
    requires { (m.base ≤ e) × (e ≤ length room.old) × (w + merged_size m.sum (e - m.base) ≤ length room.old) × (merged_size m.sum (e - m.base) < 65536) }
    ensures { Put room.old w (part m.kind (reboosted_bytes m.sum (within m.base e room.old))) result room.new }
{
    if is_one(m.sum) {
        put_clause(room, w, m.kind, m.base, e)
    } else {
        put_boosted(room, w, m.kind, rounded_bits(m.sum), m.base, e)
    }
}

// The bytes that a merged clause with a base of n bytes takes.
fn merged_size(sum: f64, n: usize) -> usize
    requires { n + 10 < 18446744073709551616 }
    ensures { result ≡ merged_size sum n }
{
    if is_one(sum) {
        HEADER + n
    } else {
        BOOSTED_FRONT + n
    }
}

// Moves what stands from `at` up to `end` so far that it begins at `need` or behind, and gives the place where it begins.
fn make_way(room: &mut [u8], need: usize, at: usize, end: usize) -> usize
    requires { (at ≤ end) × (end ≤ length room.old) × (need + (end - at) ≤ length room.old) }
    ensures { Way need at end room.old result room.new }
{
    let begin = need.max(at);
    shift(room, begin, at, end - at);
    begin
}

// The Boolean whose clauses are merged: its minimum, and whether it is rewritten strictly.
#[derive(Clone, Copy)]
struct Boolean {
    least: usize,
    // Stays: no value goes with it; the definitions take it as a Bool, and so does C, in `probe_rewrite_and_select`.
    strict: bool,
}

impl Boolean {
    fn summable(self, k: u8) -> bool
        ensures { (j : Kind) → kind_tag j ≡ k → result ≡ summable self.least j }
    {
        k == MUST_TAG || k == SHOULD_TAG && self.least <= 1
    }

    // Whether an equal clause of kind k stands for another of its kind: a strict one of a Should does so only where the minimum is at most 1.
    fn stands_for_own(self, k: u8) -> bool
        ensures { (l : Kind) → kind_tag l ≡ k → result ≡ stands_for self.strict self.least l l }
    {
        !self.strict || k != SHOULD_TAG || self.least <= 1
    }

    fn stands_for(self, j: u8, k: u8) -> bool
        ensures { (i l : Kind) → kind_tag i ≡ j → kind_tag l ≡ k → result ≡ stands_for self.strict self.least i l }
    {
        if j == k {
            self.stands_for_own(k)
        } else {
            j == MUST_TAG && k == FILTER_TAG
        }
    }

    // What a clause of kind k is compared by.
    fn held(self, k: u8, q: &[u8]) -> &[u8]
        requires { Stored q.now }
        ensures { (x : Query) (j : Kind) → Is q.now x → kind_tag j ≡ k → Is result.now (held self.least j x) }
    {
        if self.summable(k) { base(q) } else { q }
    }

    // Does a clause of kind k that is compared by h stand for one of kind j with the query q?
    fn eats(self, k: u8, h: &[u8], j: u8, q: &[u8]) -> bool
        requires { Stored q.now }
        ensures { Eats self.strict self.least k h.now j q.now result }
    {
        self.stands_for(k, j) && same(h, self.held(j, q))
    }

    // The sum once a clause of kind j with the query q was taken up.
    fn fed(self, sum: f64, j: u8, q: &[u8]) -> f64
        requires { Stored q.now }
        ensures { Fed self.least sum j q.now result }
    {
        if self.summable(j) {
            add(sum, boost_of(q))
        } else {
            sum
        }
    }

    // The clause of kind k with the query q, which stands at a place, before it has taken up any.
    fn first_of(self, at: usize, k: u8, q: &[u8]) -> Merged
        requires { Stored q.now × (at + length q.now < 18446744073709551616) }
        ensures { (j : Kind) (x : Query) → kind_tag j ≡ k → Is q.now x → First at self.least j x result.base result.kind result.sum }
    {
        if self.summable(k) {
            let h = base(q);
            Merged {
                base: at + (q.len() - h.len()),
                kind: k,
                sum: as_sum(boost_of(q)),
            }
        } else {
            Merged {
                base: at,
                kind: k,
                sum: 1.0,
            }
        }
    }

    // Goes over the clauses from `at`, where the base of m ends, up to `end`.
    fn eat(self, room: &mut [u8], m: Merged, at: usize, end: usize) -> Eaten
        requires { Eatable m.base m.kind at end room.old }
        ensures { (k : Kind) (h : Query) (cs : Clauses) → kind_tag k ≡ m.kind → Is (within m.base at room.old) h → Are (within at end room.old) cs → Ate self.strict self.least at end room.old k h cs m.sum result.from result.sum room.new }
    {
        // Stays: the clauses stand in the room that is written, so that no iterator can lend them; each ends where its header says.
        let mut sum = m.sum;
        let mut from = at;
        let mut u = at;
        while u < end {
            let j = room[u];
            let v = end_of(room, u);
            if self.eats(m.kind, &room[m.base..at], j, &room[u + HEADER..v]) {
                sum = self.fed(sum, j, &room[u + HEADER..v]);
                let f = from + (v - u);
                shift(room, f, from, u - from);
                from = f;
            }
            u = v;
        }
        Eaten { from, sum }
    }

    // The same, without a search where the table says that no clause equals m.
    fn eat_others(
        self,
        room: &mut [u8],
        m: Merged,
        at: usize,
        end: usize,
        table: Option<&[u8; TABLE]>,
    ) -> Eaten
        requires { Eatable m.base m.kind at end room.old × Alone self.least (cells_of table) m.base at end room.old }
        ensures { (k : Kind) (h : Query) (cs : Clauses) → kind_tag k ≡ m.kind → Is (within m.base at room.old) h → Are (within at end room.old) cs → Ate self.strict self.least at end room.old k h cs m.sum result.from result.sum room.new }
    {
        match table {
            Some(t) if is_alone(t, &room[m.base..at]) => Eaten {
                from: at,
                sum: m.sum,
            },
            _ => self.eat(room, m, at, end),
        }
    }

    // Merges the clauses that stand in the first `end` bytes, and lays what is kept at the front.
    // Stays: the room is lent from call to call as it is, and `Mergeable` is clauses with their proof, for a ghost field as `Stored` above.
    fn merge_all(self, room: &mut [u8], end: usize, table: Option<&[u8; TABLE]>) -> usize
        requires { Mergeable end room.old × ((cs : Clauses) → Are (within 0 end room.old) cs → Noted self.least (cells_of table) cs) }
        ensures { (cs : Clauses) → Are (within 0 end room.old) cs → Stands 0 room.old result (encodes (merged_clauses self.strict self.least cs)) room.new }
    {
        // Stays: as in `eat`, the clauses stand in the room that is written.
        let mut t = 0;
        let mut w = 0;
        let mut last = end;
        while t < last {
            let e = end_of(room, t);
            let m = self.first_of(t + HEADER, room[t], &room[t + HEADER..e]);
            let a = self.eat_others(room, m, e, last, table);
            let g = make_way(room, w + merged_size(a.sum, e - m.base), a.from, last);
            w = put_merged(room, w, Merged { sum: a.sum, ..m }, e);
            last += g - a.from;
            t = g;
        }
        w
    }

    // Notes the signature of each clause in the table.
    fn note_all(self, s: &[u8], table: &mut [u8; TABLE])
        requires { StoredClauses s.now }
        ensures { (cs : Clauses) → Are s.now cs → Noted self.least table.new cs }
    {
        let mut t = s;
        while !t.is_empty() {
            note(table, signature(self.held(t[0], body(t))));
            t = rest(t);
        }
    }

    fn merge_many(self, room: &mut [u8], end: usize) -> usize
        requires { Mergeable end room.old }
        ensures { (cs : Clauses) → Are (within 0 end room.old) cs → Stands 0 room.old result (encodes (merged_clauses self.strict self.least cs)) room.new }
    {
        // Stays: no number says how far it is filled: a cell is found by its signature, and all are 0 at first.
        let mut table = [0u8; TABLE];
        self.note_all(&room[0..end], &mut table);
        self.merge_all(room, end, Some(&table))
    }
}

// Are there so few clauses that a table is not worth its clearing?
fn is_few(clauses: &[u8]) -> bool
    requires { StoredClauses clauses.now }
    ensures { (cs : Clauses) → Are clauses.now cs → result ≡ leb (how_many cs) few }
{
    let mut t = clauses;
    for _ in 0..FEW {
        if t.is_empty() {
            return true;
        }
        t = rest(t);
    }
    t.is_empty()
}

// Merges the clauses that stand in the first `end` bytes, and lays what is kept at the front. Few clauses are compared with no table.
pub fn merge_clauses(room: &mut [u8], end: usize, least: usize, strict: bool) -> usize
    requires { Mergeable end room.old }
    ensures { (cs : Clauses) → Are (within 0 end room.old) cs → Stands 0 room.old result (encodes (merged_clauses strict least cs)) room.new }
{
    let boolean = Boolean { least, strict };
    if is_few(&room[0..end]) {
        boolean.merge_all(room, end, None)
    } else {
        boolean.merge_many(room, end)
    }
}
