// The node of a stored query, without its line: what kind it is and what it holds beside nested queries.
ghost use Rattle.std.specs.Prelude.{◌≡◌, ◌≤◌, true, length};
ghost use Rattle.rules.specs.Bytes.{every, each};
ghost use Rattle.rules.specs.Reading.{is_word, word_of, is_bound, bound_of};
ghost use Rattle.rules.specs.Checked.{Stored};
ghost use Rattle.rules.specs.Show.{shown_words, shown_bound};
ghost use Rattle.show.specs.Lays.{Lays};
ghost use Rattle.show.specs.Node.{HoldsTerm, term_text, HoldsPhrase, phrase_text, HoldsMinimum, boolean_text, boost_text, range_name, HoldsRange, range_text, word_text, node, query_in};

use crate::put::{put, put_decimal};
use crate::text::{put_field, put_hex, put_shown};
use names::{
    BOOLEAN_TAG, BOOST_BYTES, BOOST_TAG, CONSTANT_SCORE_TAG, INCLUDED_TAG, MATCH_ALL_TAG,
    MATCH_NONE_TAG, OPEN_TAG, PHRASE_TAG, POSITION_BYTES, TERM_TAG, WHOLE_RANGE_TAG,
};
use numbers::{big2, big4};
use parts::part::{body, rest, tag_of};

// Stays: `out` and `at` travel together as in `put`, and `b` is each writer's own body.
fn put_term(out: &mut [u8], at: usize, b: &[u8]) -> usize
    requires { HoldsTerm b.now }
    ensures { Lays out.old at (term_text b.now) result out.new }
{
    let p = put(out, at, b"term ");
    let q = put_field(out, p, body(b));
    let r = put(out, q, b" ");
    put_shown(out, r, body(rest(b)))
}

// The word at the front of a row: its position and its text.
fn put_word(out: &mut [u8], at: usize, ws: &[u8]) -> usize
    requires { is_word ws.now ≡ true }
    ensures { Lays out.old at (word_text ws.now) result out.new }
{
    let w = body(ws);
    let p = put(out, at, b" ");
    let q = put_decimal(out, p, big4(w) as usize);
    let r = put(out, q, b":");
    put_shown(out, r, &w[POSITION_BYTES..])
}

fn put_words(out: &mut [u8], at: usize, ws: &[u8]) -> usize
    requires { every is_word ws.now ≡ true }
    ensures { Lays out.old at (shown_words (each word_of ws.now)) result out.new }
{
    let mut t = ws;
    let mut a = at;
    while t.len() > 0 {
        a = put_word(out, a, t);
        let u = rest(t);
        t = u;
    }
    a
}

fn put_phrase(out: &mut [u8], at: usize, b: &[u8]) -> usize
    requires { HoldsPhrase b.now }
    ensures { Lays out.old at (phrase_text b.now) result out.new }
{
    let p = put(out, at, b"phrase ");
    let q = put_field(out, p, body(b));
    put_words(out, q, rest(b))
}

fn put_boolean(out: &mut [u8], at: usize, b: &[u8]) -> usize
    requires { HoldsMinimum b.now }
    ensures { Lays out.old at (boolean_text b.now) result out.new }
{
    let p = put(out, at, b"boolean ");
    put_decimal(out, p, big2(body(b)))
}

fn put_boost(out: &mut [u8], at: usize, b: &[u8]) -> usize
    requires { 4 ≤ length b.now }
    ensures { Lays out.old at (boost_text b.now) result out.new }
{
    let p = put(out, at, b"boost ");
    put_hex(out, p, &b[0..BOOST_BYTES])
}

fn put_bound(out: &mut [u8], at: usize, s: &[u8]) -> usize
    requires { is_bound s.now ≡ true }
    ensures { Lays out.old at (shown_bound (bound_of s.now)) result out.new }
{
    let tag = tag_of(s);
    if tag == OPEN_TAG {
        return put(out, at, b" open");
    }
    if tag == INCLUDED_TAG {
        let p = put(out, at, b" included:");
        return put_hex(out, p, body(s));
    }
    let p = put(out, at, b" excluded:");
    put_hex(out, p, body(s))
}

fn put_range_name(out: &mut [u8], at: usize, tag: u8) -> usize
    ensures { Lays out.old at (range_name tag) result out.new }
{
    if tag == WHOLE_RANGE_TAG {
        return put(out, at, b"wholerange ");
    }
    put(out, at, b"floatrange ")
}

fn put_range(out: &mut [u8], at: usize, tag: u8, b: &[u8]) -> usize
    requires { HoldsRange b.now }
    ensures { Lays out.old at (range_text tag b.now) result out.new }
{
    let p = put_range_name(out, at, tag);
    let q = put_field(out, p, body(b));
    let l = rest(b);
    let r = put_bound(out, q, l);
    put_bound(out, r, rest(l))
}

pub fn put_node(out: &mut [u8], at: usize, s: &[u8]) -> usize
    requires { Stored s.now }
    ensures { Lays out.old at (node (query_in s.now)) result out.new }
{
    let b = body(s);
    let tag = tag_of(s);
    match tag {
        TERM_TAG => put_term(out, at, b),
        PHRASE_TAG => put_phrase(out, at, b),
        BOOLEAN_TAG => put_boolean(out, at, b),
        BOOST_TAG => put_boost(out, at, b),
        CONSTANT_SCORE_TAG => put(out, at, b"constantscore"),
        MATCH_ALL_TAG => put(out, at, b"matchall"),
        MATCH_NONE_TAG => put(out, at, b"matchnone"),
        _ => put_range(out, at, tag, b),
    }
}
