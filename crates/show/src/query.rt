// A stored query and what it nests, a line for each: depth, clause kind, node.
ghost use Rattle.rules.specs.Checked.{Stored};
ghost use Rattle.rules.specs.Show.{line, show, show_clauses};
ghost use Rattle.show.specs.Lays.{Lays};
ghost use Rattle.show.specs.Node.{node, query_in, row_in, kind_text, ToShow, ToShowAll};

use crate::node::put_node;
use crate::put::{put, put_decimal};
use names::{
    BOOLEAN_TAG, BOOST_BYTES, BOOST_TAG, CONSTANT_SCORE_TAG, FILTER_TAG, MUST_NOT_TAG, MUST_TAG,
    NO_TAG, SHOULD_TAG,
};
use parts::part::{body, rest, tag_of};

// Stays: the kind is a stored tag's byte or NO_TAG, and an Option is no plainer: None would be shown as any byte that is no kind, as `-`.
fn put_kind(out: &mut [u8], at: usize, kind: u8) -> usize
    ensures { Lays out.old at (kind_text kind) result out.new }
{
    match kind {
        MUST_TAG => put(out, at, b"must"),
        SHOULD_TAG => put(out, at, b"should"),
        MUST_NOT_TAG => put(out, at, b"mustnot"),
        FILTER_TAG => put(out, at, b"filter"),
        _ => put(out, at, b"-"),
    }
}

// Stays: `out` and `at` travel together as in `put`, and the depth is another one in each call.
fn put_line(out: &mut [u8], at: usize, d: usize, kind: u8, s: &[u8]) -> usize
    requires { Stored s.now }
    ensures { Lays out.old at (line d (kind_text kind) (node (query_in s.now))) result out.new }
{
    let p = put_decimal(out, at, d);
    let q = put(out, p, b" ");
    let r = put_kind(out, q, kind);
    let t = put(out, r, b" ");
    let u = put_node(out, t, s);
    put(out, u, b"\n")
}

#[cycle(show_clauses_show_query)]
fn show_clauses(out: &mut [u8], at: usize, d: usize, cs: &[u8]) -> usize
    requires { ToShowAll d cs.now }
    ensures { Lays out.old at (show_clauses d (row_in cs.now)) result out.new }
{
    let mut t = cs;
    let mut a = at;
    while t.len() > 0 {
        a = show_query(out, a, d, tag_of(t), body(t));
        let u = rest(t);
        t = u;
    }
    a
}

// The kind is a clause's tag, or NO_TAG.
#[cycle(show_clauses_show_query)]
pub fn show_query(out: &mut [u8], at: usize, d: usize, kind: u8, s: &[u8]) -> usize
    requires { ToShow d s.now }
    ensures { Lays out.old at (show d (kind_text kind) (query_in s.now)) result out.new }
{
    let a = put_line(out, at, d, kind, s);
    let b = body(s);
    let tag = tag_of(s);
    match tag {
        BOOLEAN_TAG => show_clauses(out, a, d + 1, rest(b)),
        BOOST_TAG => show_query(out, a, d + 1, NO_TAG, &b[BOOST_BYTES..]),
        CONSTANT_SCORE_TAG => show_query(out, a, d + 1, NO_TAG, b),
        _ => a,
    }
}
