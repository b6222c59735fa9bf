// The writing pass, run only when measuring met no fault and the output is long enough. The body of a clause is written
// first, behind the bytes that are left for its header, and the header afterwards, when its length is known. Only a query in brackets
// is measured once more: whether it stands alone must be known first, and it is lent the stretch that it fills exactly.
ghost use Rattle.std.specs.Prelude.{◌≡◌, false, ℕ, ◌+◌, ◌-◌, ◌≤◌, ◌<◌, List, length};
ghost use Rattle.rules.specs.Numbers.{text_most, got};
ghost use Rattle.rules.specs.Query.{Clauses};
ghost use Rattle.rules.specs.Lexing.{term_kind};
ghost use Rattle.rules.specs.Numerals.{numeral_bits};
ghost use Rattle.rules.specs.Setup.{Setup};
ghost use Rattle.rules.specs.Parsing.{Made, found, is_at, text_at, boost_at, query_of};
ghost use Rattle.numbers.specs.Laid.{Put};
ghost use Rattle.row.specs.Row.{room_least, tokens_of};
ghost use Rattle.counted.specs.Kinds.{made_bytes};
ghost use Rattle.clauses.specs.Joining.{conjunction_of};
ghost use Rattle.clauses.specs.Measured.{Rowed, Fielded};
ghost use Rattle.clauses.specs.Written.{bits_in, boost_size, body_start, bool_front, PutUnless, Touches, LeafToWrite, BracketToWrite, ClauseToWrite, QueryToWrite};

use crate::kinds;
use crate::kinds::{Conjunction, is_at};
use crate::leaf::write_text;
use crate::measure::measure_query;
use crate::scope::{Row, Scope};
use crate::start::{clause_start, one_at};
use boost::numeral::numeral;
use names::{
    BOOLEAN_FRONT, BOOLEAN_TAG, BOOST_FRONT, BOOST_TAG, CARET_KIND, HEADER, OPEN_KIND, TERM_KIND,
};
use numbers::put_big4;
use parts::write::{put_header, put_minimum};
use row::{field_part, text_at};

// The bits of the numeral at the token i.
fn bits_at(row: &Row, i: usize) -> u32
    requires { i < row.now.n }
    ensures { result ≡ bits_in (numeral_bits (text_at (tokens_of row.now.room.now row.now.n) i)) }
{
    numeral(text_at(row.room, i)).unwrap_or(0)
}

// Where the bytes of what was written end, and the number of the next token.
#[derive(Drop)]
struct Wrote {
    end: usize,
    next: usize,
}

// How many bytes the front of a boost takes, where one stands at i.
fn boost_size(row: &Row, i: usize) -> usize
    requires { i ≤ 4000 }
    ensures { result ≡ boost_size (tokens_of row.now.room.now row.now.n) i }
{
    if is_at(row, CARET_KIND, i) && is_at(row, TERM_KIND, i + 1) {
        return BOOST_FRONT;
    }
    0
}

// What is boosted was laid from `start` to `end`: the front goes before it, to `at`, if a boost stands at i. A boost of nothing is nothing.
fn put_boost(row: &Row, i: usize, out: &mut [u8], at: usize, start: usize, end: usize) -> Wrote
    requires { (i ≤ row.now.n) × (start ≡ at + boost_size (tokens_of row.now.room.now row.now.n) i) × (start ≤ end) × (start < end → end ≤ length out.old) × (length out.old ≤ 65000) }
    ensures wrote { (st : Setup) (m w : Made) (j : ℕ) (before : List ℕ) → boost_at st (tokens_of row.now.room.now row.now.n) m i ≡ got (found w j) → Put before start (made_bytes m) end out.old → length before ≡ length out.old → (result.next ≡ j) × Put before at (made_bytes w) result.end out.new }
    ensures within { (i ≤ result.next) × (result.next ≤ row.now.n) }
{
    if start == at {
        return Wrote { end, next: i };
    }
    if end == start {
        return Wrote {
            end: at,
            next: i + 2,
        };
    }
    let b = put_header(out, at, BOOST_TAG, end - at - HEADER);
    put_big4(out, b, bits_at(row, i + 1));
    Wrote { end, next: i + 2 }
}

// The term or the quote at i.
fn write_leaf(row: &Row, p: Scope, plain: bool, i: usize, out: &mut [u8], at: usize) -> Wrote
    requires { (Fielded row.now.room.now row.now.n row.now.default.now p.from) × (i < row.now.n) × (at ≤ 65536) × (length out.old ≤ 65000) × (plain ≡ is_at term_kind (tokens_of row.now.room.now row.now.n) i) × ((st : Setup) × (m : Made) × (j : ℕ) × LeafToWrite row.now.room.now row.now.n row.now.default.now p.operator p.from p.analyzer i at (length out.old) st m j) }
    ensures wrote { (st : Setup) (m : Made) (j : ℕ) → LeafToWrite row.now.room.now row.now.n row.now.default.now p.operator p.from p.analyzer i at (length out.old) st m j → (result.next ≡ j) × Put out.old at (made_bytes m) result.end out.new }
    ensures within { (i < result.next) × (result.next ≤ row.now.n) }
{
    let field = field_part(row.room, row.default, p.from);
    let text = text_at(row.room, i);
    let one = one_at(row, i, p.analyzer);
    let size = boost_size(row, i + 1);
    if size == 0 {
        let end = write_text(plain, one, p.operator, field, p.analyzer, text, out, at);
        return Wrote { end, next: i + 1 };
    }
    let start = at + size;
    let end = write_text(plain, one, p.operator, field, p.analyzer, text, out, start);
    put_boost(row, i + 1, out, at, start, end)
}

// Stays: `alone` is in the clauses of the public `write_query` (`QueryToWrite`), and what it leaves out is a front, not another step.

// The front of a Boolean that fills the stretch; none where a query is its one clause.
fn put_query_front(out: &mut [u8], alone: bool) -> usize
    requires { (alone ≡ false → 8 ≤ length out.old) × (length out.old ≤ 65000) }
    ensures { PutUnless alone out.old 0 (bool_front (length out.old)) result out.new }
{
    if alone {
        return 0;
    }
    let len = out.len() - HEADER;
    let b = put_header(out, 0, BOOLEAN_TAG, len);
    put_minimum(out, b, 0)
}

// Where the body of a clause begins: behind its header, and at once where a query is its one clause.
fn body_start(alone: bool, at: usize) -> usize
    requires { at ≤ 65000 }
    ensures { result ≡ body_start alone at }
{
    if alone {
        return at;
    }
    at + HEADER
}

// The conjunction c alters the kind of the clause that was kept last, whose header stands at `last`.
fn touch_last(out: &mut [u8], kept: bool, last: usize, operator: u8, c: Option<Conjunction>)
    requires { last < length out.old }
    ensures { Touches kept last operator (conjunction_of c) out.old out.new }
{
    if kept {
        out[last] = kinds::tag_before(operator, c, out[last]);
    }
}

// The query in brackets from i on, and a boost behind it.
#[cycle(write_bracket_write_clause_write_query)]
fn write_bracket(row: &Row, p: Scope, i: usize, out: &mut [u8], at: usize) -> Wrote
    requires { (Fielded row.now.room.now row.now.n row.now.default.now p.from) × (i ≤ row.now.n) × (p.depth ≤ 24) × (at ≤ 65536) × (length out.old ≤ 65000) × ((st : Setup) × (m : Made) × (j : ℕ) × BracketToWrite row.now.room.now row.now.n row.now.default.now p.operator p.from p.analyzer p.depth i at (length out.old) st m j) }
    ensures wrote { (st : Setup) (m : Made) (j : ℕ) → BracketToWrite row.now.room.now row.now.n row.now.default.now p.operator p.from p.analyzer p.depth i at (length out.old) st m j → (result.next ≡ j) × Put out.old at (made_bytes m) result.end out.new }
    ensures within { (i < result.next) × (result.next ≤ row.now.n) }
{
    let Ok(g) = measure_query(row, p, i) else {
        unreachable!();
    };
    let len = g.sum.query_len();
    let boost = g.next + 1;
    let start = at + boost_size(row, boost);
    let end = start + len;
    if len == 0 {
        return put_boost(row, boost, out, at, start, start);
    }
    let alone = g.sum.is_alone();
    write_query(row, p, i, alone, &mut out[start..end]);
    put_boost(row, boost, out, at, start, end)
}

// One clause at i: where its bytes end, and the next token. Nothing is written where it analyzes to nothing.
#[cycle(write_bracket_write_clause_write_query)]
fn write_clause(row: &Row, p: Scope, i: usize, out: &mut [u8], at: usize) -> Wrote
    requires { (Fielded row.now.room.now row.now.n row.now.default.now p.from) × (i ≤ 2000) × (p.depth ≤ 24) × (at ≤ 65536) × (length out.old ≤ 65000) × ((st : Setup) × (m : Made) × (j : ℕ) × ClauseToWrite row.now.room.now row.now.n row.now.default.now p.operator p.from p.analyzer p.depth i at (length out.old) st m j) }
    ensures wrote { (st : Setup) (m : Made) (j : ℕ) → ClauseToWrite row.now.room.now row.now.n row.now.default.now p.operator p.from p.analyzer p.depth i at (length out.old) st m j → (result.next ≡ j) × Put out.old at (made_bytes m) result.end out.new }
    ensures within { (i < result.next) × (result.next ≤ row.now.n) }
{
    let Ok(start) = clause_start(row, p, i) else {
        unreachable!();
    };
    // also for a leaf, which asks for no depth
    let inner = Scope {
        from: start.from,
        depth: p.depth + 1,
        analyzer: start.analyzer,
        ..p
    };
    if !is_at(row, OPEN_KIND, start.i) {
        let plain = is_at(row, TERM_KIND, start.i);
        return write_leaf(row, inner, plain, start.i, out, at);
    }
    write_bracket(row, inner, start.i + 1, out, at)
}

// The clauses from `at` on: one that stands for itself, or a Boolean of all that are kept.
#[cycle(write_bracket_write_clause_write_query)]
pub fn write_query(row: &Row, p: Scope, at: usize, alone: bool, out: &mut [u8])
    requires { (Fielded row.now.room.now row.now.n row.now.default.now p.from) × (at ≤ row.now.n) × (p.depth ≤ 24) × (0 < length out.old) × (length out.old ≤ 65000) × ((st : Setup) × (cs : Clauses) × (j : ℕ) × QueryToWrite row.now.room.now row.now.n row.now.default.now p.operator p.from p.analyzer p.depth at alone (length out.old) st cs j) }
    ensures { (st : Setup) (cs : Clauses) (j : ℕ) → QueryToWrite row.now.room.now row.now.n row.now.default.now p.operator p.from p.analyzer p.depth at alone (length out.old) st cs j → out.new ≡ made_bytes (query_of cs) }
{
    let mut w = put_query_front(out, alone);
    let mut last = 0;
    let mut i = at;
    // Stays: no index is counted: i goes on by what a clause took.
    while kinds::more_at(row, i) {
        let lead = kinds::lead_at(row, BOOLEAN_FRONT < w, i);
        touch_last(out, BOOLEAN_FRONT < w, last, p.operator, lead.conjunction);
        let start = body_start(alone, w);
        let r = write_clause(row, p, lead.next, out, start);
        i = r.next;
        if r.end == start {
            continue;
        }
        if alone {
            return;
        }
        let tag = kinds::tag_after(p.operator, lead.conjunction, lead.modifier);
        put_header(out, w, tag, r.end - start);
        last = w;
        w = r.end;
    }
}
