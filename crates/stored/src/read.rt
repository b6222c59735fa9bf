// The reader of stored queries, for both limits: that the bytes are one query's stored form, or else what is wrong first in reading order.
// No function here calls itself: a scheduler's thread has little stack, and a query may nest 192 records.
ghost use Rattle.std.specs.Prelude.{◌≡◌, ◌+◌, ◌≤◌, ◌<◌, length};
ghost use Rattle.names.specs.Refusals.{checked};
ghost use Rattle.rules.specs.Bytes.{every};
ghost use Rattle.rules.specs.Stored.{is_boost};
ghost use Rattle.rules.specs.Reading.{is_word, is_bound, read_within, read_for_rewriting, read_for_selection};
ghost use Rattle.stored.specs.Read.{verdict, said, behind, pushed, Popped, row_of, is_term, is_phrase, is_range, is_leaf, is_minimum, is_clause, is_record, is_boosted, is_simple, OfFront, OfOpened, OfNext};

use names::refusal::Refusal;
use names::{
    BOOLEAN_FRONT, BOOLEAN_TAG, BOOST_BYTES, BOOST_FRONT, BOOST_TAG, CONSTANT_SCORE_TAG,
    EXCLUDED_TAG, FIELD_TAG, FILTER_TAG, FLOAT_RANGE_TAG, HEADER, INCLUDED_TAG, INFINITY,
    MATCH_ALL_TAG, MATCH_NONE_TAG, MINIMUM_BYTES, MINIMUM_TAG, MUST_TAG, NUMBER_BYTES, OPEN_TAG,
    PHRASE_TAG, POSITION_BYTES, REWRITER_BYTES, REWRITER_DEPTH, SELECTION_BYTES, SELECTION_DEPTH,
    SIGN, TERM_TAG, TEXT_TAG, THE_NAN, WORD_TAG,
};
use numbers::big4;
use parts::part::{
    body, is_field_part, is_part, is_part_of, is_plain, is_within, rest, size_of, whole,
};
use stretches::is_text;

// ---- what holds no query

pub fn is_word(s: &[u8]) -> bool
    ensures { result ≡ is_word s.now }
{
    if !is_part(s, WORD_TAG) {
        return false;
    }
    let w = body(s);
    w.len() >= POSITION_BYTES && is_text(&w[POSITION_BYTES..])
}

fn is_words(s: &[u8]) -> bool
    ensures { result ≡ every is_word s.now }
{
    let mut t = s;
    while !t.is_empty() {
        if !is_word(t) {
            return false;
        }
        t = rest(t);
    }
    true
}

fn is_bound(s: &[u8]) -> bool
    ensures { result ≡ is_bound s.now }
{
    if !whole(s) {
        return false;
    }
    let b = body(s);
    match s[0] {
        OPEN_TAG => b.is_empty(),
        INCLUDED_TAG => b.len() == NUMBER_BYTES,
        EXCLUDED_TAG => b.len() == NUMBER_BYTES,
        _ => false,
    }
}

fn is_term(b: &[u8]) -> bool
    ensures { result ≡ is_term b.now }
{
    if !is_field_part(b) {
        return false;
    }
    let t = rest(b);
    if !is_part(t, TEXT_TAG) {
        return false;
    }
    is_text(body(t)) && rest(t).is_empty()
}

// The same, short terms first.
fn is_any_term(b: &[u8]) -> bool
    ensures { result ≡ is_term b.now }
{
    is_plain(b, TEXT_TAG, 0) || is_term(b)
}

fn is_phrase(b: &[u8]) -> bool
    ensures { result ≡ is_phrase b.now }
{
    is_field_part(b) && is_words(rest(b))
}

fn is_range(b: &[u8]) -> bool
    ensures { result ≡ is_range b.now }
{
    if !is_field_part(b) {
        return false;
    }
    let lower = rest(b);
    if !is_bound(lower) {
        return false;
    }
    let upper = rest(lower);
    is_bound(upper) && rest(upper).is_empty()
}

// The body of a record that holds no query.
fn is_leaf(tag: u8, b: &[u8]) -> bool
    ensures { result ≡ is_leaf tag b.now }
{
    match tag {
        TERM_TAG => is_term(b),
        PHRASE_TAG => is_phrase(b),
        MATCH_ALL_TAG => b.is_empty(),
        MATCH_NONE_TAG => b.is_empty(),
        _ => is_range(b),
    }
}

// ---- headers of what nests

fn is_minimum(b: &[u8]) -> bool
    ensures { result ≡ is_minimum b.now }
{
    is_part_of(b, MINIMUM_TAG, MINIMUM_BYTES)
}

// Stays: `is_clause` and `is_record` are one call of `is_within` each already, and name the two kinds of header.
fn is_clause(s: &[u8]) -> bool
    ensures { result ≡ is_clause s.now }
{
    is_within(s, MUST_TAG, FILTER_TAG)
}

fn is_record(s: &[u8]) -> bool
    ensures { result ≡ is_record s.now }
{
    is_within(s, TERM_TAG, FLOAT_RANGE_TAG)
}

// There is one NaN: any other is malformed.
fn is_boost(bits: u32) -> bool
    ensures { result ≡ is_boost bits }
{
    bits % SIGN <= INFINITY || bits == THE_NAN
}

// The bytes before the query that a Boost holds.
fn is_boosted(b: &[u8]) -> bool
    ensures { result ≡ is_boosted b.now }
{
    b.len() >= BOOST_BYTES && is_boost(big4(b))
}

// ---- what nests

// What a record holds: from where to where it stands, and how many records may nest in it.
#[derive(Clone, Copy)]
struct Held {
    from: usize,
    to: usize,
    left: usize,
}

impl Held {
    // The same in bytes that have n more in front.
    fn behind(self, n: usize) -> Held
        requires { (n + self.from ≤ usize.MAX) × (n + self.to ≤ usize.MAX) }
        ensures { result ≡ behind n self }
    {
        Held {
            from: n + self.from,
            to: n + self.to,
            left: self.left,
        }
    }
}

// A sound record at the front: where one ends that holds no query, or a row of clauses, or a query inside it.
#[derive(Drop)]
enum Front {
    Leaf(usize),
    Row(Held),
    Inner(Held),
}

// Stays: `ok` is a test's answer, not a choice of steps: both arms are values, and there is no step to pass as a closure.
fn say(ok: bool) -> Result<(), Refusal>
    ensures { result ≡ said ok }
{
    if ok {
        Ok(())
    } else {
        Err(Refusal::MalformedQuery)
    }
}

fn look(q: &[u8], depth: usize) -> Result<Front, Refusal>
    ensures { OfFront depth q.now result }
{
    say(is_record(q))?;
    if depth == 0 {
        return Err(Refusal::DeepQuery);
    }
    let left = depth - 1;
    let to = HEADER + size_of(q);
    let b = body(q);
    let tag = q[0];
    match tag {
        BOOLEAN_TAG => {
            say(is_minimum(b))?;
            let from = BOOLEAN_FRONT;
            Ok(Front::Row(Held { from, to, left }))
        }
        BOOST_TAG => {
            say(is_boosted(b))?;
            let from = BOOST_FRONT;
            Ok(Front::Inner(Held { from, to, left }))
        }
        CONSTANT_SCORE_TAG => {
            let from = HEADER;
            Ok(Front::Inner(Held { from, to, left }))
        }
        _ => {
            say(is_leaf(tag, b))?;
            Ok(Front::Leaf(to))
        }
    }
}

// The same with the Boosts and ConstantScores around it gone through.
#[derive(Drop)]
enum Opened {
    Leaf(usize),
    Row(Held),
}

fn unwrap(s: &[u8], depth: usize) -> Result<Opened, Refusal>
    ensures { OfOpened depth s.now result }
{
    let mut here = Held {
        from: 0,
        to: s.len(),
        left: depth,
    };
    loop {
        let at = here.from;
        match look(&s[at..here.to], here.left)? {
            Front::Leaf(e) => return Ok(Opened::Leaf(at + e)),
            Front::Row(h) => return Ok(Opened::Row(h.behind(at))),
            Front::Inner(h) => here = h.behind(at),
        }
    }
}

// The clause at the front of a row: past it, into the clauses that it holds, or into them for the last time,
// where something is left over behind them: then only a fault met in them can come before that one.
#[derive(Drop)]
enum Next {
    Past(usize),
    Into(Held),
    Last(Held),
}

// Most clauses hold one term: this test of them needs no enum, and what does not pass it is looked at in full.
fn is_simple(q: &[u8], left: usize) -> bool
    ensures { result ≡ is_simple left q.now }
{
    if left == 0 || !is_part(q, TERM_TAG) {
        return false;
    }
    is_any_term(body(q)) && rest(q).is_empty()
}

fn step(t: &[u8], left: usize) -> Result<Next, Refusal>
    requires { 0 < length t.now }
    ensures { OfNext left t.now result }
{
    say(is_clause(t))?;
    let q = body(t);
    let n = q.len();
    if is_simple(q, left) {
        return Ok(Next::Past(HEADER + n));
    }
    match unwrap(q, left)? {
        Opened::Leaf(e) => {
            say(e == n)?;
            Ok(Next::Past(HEADER + n))
        }
        Opened::Row(h) => {
            let inside = h.behind(HEADER);
            if h.to == n {
                Ok(Next::Into(inside))
            } else {
                Ok(Next::Last(inside))
            }
        }
    }
}

// A row that waits for the end of one inside it, where it goes on: where it ends itself, and how many records may nest in it.
#[derive(Clone, Copy)]
struct Outer {
    end: u16,
    left: u8,
}

// The rows around the one at hand, the innermost last, in a short array, so that the stack does not grow with the depth.
#[derive(Clone, Copy)]
struct Around {
    rows: [Outer; SELECTION_DEPTH],
    n: usize,
}

impl Around {
    fn push(&mut self, row: Held)
        requires { (self.old.n < 192) × (row.to < 65536) × (row.left < 256) }
        ensures { self.new ≡ pushed row self.old }
    {
        self.rows[self.n] = Outer {
            end: row.to as u16,
            left: row.left as u8,
        };
        self.n += 1;
    }

    fn pop(&mut self) -> Option<Outer>
        requires { self.old.n ≤ 192 }
        ensures { Popped self.old self.new result }
    {
        if self.n == 0 {
            return None;
        }
        self.n -= 1;
        Some(self.rows[self.n])
    }
}

// Reads a row of clauses, and the rows inside it.
fn rows(s: &[u8], first: usize, sound: Result<(), Refusal>) -> Result<(), Refusal>
    requires { (first < 192) × (length s.now < 65536) }
    ensures { result ≡ verdict sound (row_of first s.now) }
{
    let mut around = Around {
        rows: [Outer { end: 0, left: 0 }; SELECTION_DEPTH],
        n: 0,
    };
    let mut here = Held {
        from: 0,
        to: s.len(),
        left: first,
    };
    let mut good = sound;
    loop {
        let at = here.from;
        if at < here.to {
            match step(&s[at..here.to], here.left)? {
                Next::Past(k) => here.from = at + k,
                Next::Into(h) => {
                    around.push(here);
                    here = h.behind(at);
                }
                Next::Last(h) => {
                    around.n = 0;
                    good = Err(Refusal::MalformedQuery);
                    here = h.behind(at);
                }
            }
        } else {
            match around.pop() {
                None => return good,
                Some(row) => {
                    here.to = usize::from(row.end);
                    here.left = usize::from(row.left);
                }
            }
        }
    }
}

// ---- the two limits

// For any limit on the bytes, and a limit on the depth of at most 192.
fn check_query(s: &[u8], most: usize, depth: usize) -> Result<(), Refusal>
    requires { depth ≤ 192 }
    ensures { result ≡ checked (read_within most depth s.now) }
{
    if s.len() > most {
        return Err(Refusal::LongQuery);
    }
    match unwrap(s, depth)? {
        Opened::Leaf(e) => say(e == s.len()),
        Opened::Row(h) => rows(&s[h.from..h.to], h.left, say(h.to == s.len())),
    }
}

// Stays: `for_rewriting` and `for_selection` are two public calls that docs/ANSWERS.md names, each one line over `check_query`.
pub fn for_rewriting(s: &[u8]) -> Result<(), Refusal>
    ensures { result ≡ checked (read_for_rewriting s.now) }
{
    check_query(s, REWRITER_BYTES, REWRITER_DEPTH)
}

pub fn for_selection(s: &[u8]) -> Result<(), Refusal>
    ensures { result ≡ checked (read_for_selection s.now) }
{
    check_query(s, SELECTION_BYTES, SELECTION_DEPTH)
}
