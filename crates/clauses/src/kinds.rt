// Decisions on one token or on numbers alone: what joins clauses, what stands before one, which kind a clause gets.
// A clause's kind is its tag.
ghost use Rattle.std.specs.Prelude.{◌≡◌, not, ◌+◌, ◌*◌, ◌≤◌, length};
ghost use Rattle.rules.specs.Numbers.{text_most};
ghost use Rattle.rules.specs.Query.{Clauses};
ghost use Rattle.rules.specs.Parsing.{Made, stops_at, is_at, conjunction_at, modifier_at, touched, kind_after, operator_kind};
ghost use Rattle.rules.specs.Stored.{kind_tag};
ghost use Rattle.row.specs.Row.{room_least, tokens_of};
ghost use Rattle.clauses.specs.Joining.{conjunction_of, modifier_of, Leads};
ghost use Rattle.counted.specs.Kinds.{is_kept, last_tag, made_length, with_made, Sums};
ghost use Rattle.clauses.specs.Measured.{is_named};

use crate::scope::Row;
use counted::Sum;
use names::{
    AND_KIND, AND_OPERATOR, CLOSE_KIND, COLON_KIND, END_KIND, HEADER, MINUS_KIND, MUST_NOT_TAG,
    MUST_TAG, NO_TAG, NOT_KIND, OR_KIND, PLUS_KIND, SHOULD_TAG, TERM_KIND,
};
use row::kind_at;

// What joins a clause to those before it.
#[derive(Clone, Copy)]
pub enum Conjunction {
    And,
    Or,
}

// What stands before a clause.
#[derive(Clone, Copy)]
pub enum Modifier {
    Required,
    Prohibited,
}

// What was read before a clause, and the number of the clause's first token.
#[derive(Clone, Copy)]
pub struct Lead {
    pub conjunction: Option<Conjunction>,
    pub modifier: Option<Modifier>,
    pub next: usize,
}

// A clause that was read: the length of its query, 0 where it analyzes to nothing, and the number of the next token.
// Stays: here and in `leaf` 0 is the length of no query, as `made_length` says; an Option would be turned into it in each sum.
#[derive(Clone, Copy)]
pub struct Clause {
    pub len: usize,
    pub next: usize,
}

pub fn is_at(row: &Row, kind: u8, i: usize) -> bool
    ensures { result ≡ is_at kind (tokens_of row.now.room.now row.now.n) i }
{
    kind_at(row.room, row.n, i) == kind
}

// A clause is to be read at i: no closing bracket and no end stands there.
pub fn more_at(row: &Row, i: usize) -> bool
    ensures { result ≡ not (stops_at (tokens_of row.now.room.now row.now.n) i) }
{
    let t = kind_at(row.room, row.n, i);
    t != CLOSE_KIND && t != END_KIND
}

// A field name and its colon stand at i.
pub fn is_named(row: &Row, i: usize) -> bool
    requires { i ≤ 4096 }
    ensures { result ≡ is_named (tokens_of row.now.room.now row.now.n) i }
{
    is_at(row, TERM_KIND, i) && is_at(row, COLON_KIND, i + 1)
}

// The conjunction at i, looked for only when some clause has been kept.
// Stays: `kept` says whether to look at all, and nothing is computed otherwise; there is no other step to hand over.
fn conjunction_at(row: &Row, kept: bool, i: usize) -> Option<Conjunction>
    ensures { (cs : Clauses) → is_kept cs ≡ kept → conjunction_at cs (tokens_of row.now.room.now row.now.n) i ≡ conjunction_of result }
{
    if !kept {
        return None;
    }
    match kind_at(row.room, row.n, i) {
        AND_KIND => Some(Conjunction::And),
        OR_KIND => Some(Conjunction::Or),
        _ => None,
    }
}

// The modifier at i.
fn modifier_at(row: &Row, i: usize) -> Option<Modifier>
    ensures { modifier_at (tokens_of row.now.room.now row.now.n) i ≡ modifier_of result }
{
    match kind_at(row.room, row.n, i) {
        PLUS_KIND => Some(Modifier::Required),
        MINUS_KIND | NOT_KIND => Some(Modifier::Prohibited),
        _ => None,
    }
}

// What stands before the clause that begins at i.
pub fn lead_at(row: &Row, kept: bool, i: usize) -> Lead
    requires { i ≤ 4096 }
    ensures means { (cs : Clauses) → is_kept cs ≡ kept → Leads (tokens_of row.now.room.now row.now.n) cs i (conjunction_of result.conjunction) (modifier_of result.modifier) result.next }
    ensures within { (i ≤ result.next) × (result.next ≤ i + 2) }
{
    let conjunction = conjunction_at(row, kept, i);
    let behind = i + usize::from(conjunction.is_some());
    let modifier = modifier_at(row, behind);
    Lead {
        conjunction,
        modifier,
        next: behind + usize::from(modifier.is_some()),
    }
}

// What a conjunction makes of the tag before it.
pub fn tag_before(operator: u8, c: Option<Conjunction>, tag: u8) -> u8
    ensures { (cs : Clauses) → tag ≡ last_tag cs → result ≡ last_tag (touched operator (conjunction_of c) cs) }
{
    if tag == NO_TAG || tag == MUST_NOT_TAG {
        return tag;
    }
    match c {
        None => tag,
        Some(Conjunction::And) => MUST_TAG,
        Some(Conjunction::Or) if operator == AND_OPERATOR => SHOULD_TAG,
        Some(Conjunction::Or) => tag,
    }
}

// The tag of a clause after a conjunction and a modifier.
pub fn tag_after(operator: u8, c: Option<Conjunction>, m: Option<Modifier>) -> u8
    ensures { result ≡ kind_tag (kind_after operator (conjunction_of c) (modifier_of m)) }
{
    match (m, c) {
        (Some(Modifier::Prohibited), _) => MUST_NOT_TAG,
        (Some(Modifier::Required), Some(Conjunction::Or)) if operator == AND_OPERATOR => SHOULD_TAG,
        (Some(Modifier::Required), _) => MUST_TAG,
        (None, None) => operator_tag(operator),
        (None, Some(Conjunction::And)) => MUST_TAG,
        (None, Some(Conjunction::Or)) => SHOULD_TAG,
    }
}

// The tag of the default operator's kind.
pub fn operator_tag(operator: u8) -> u8
    ensures { result ≡ kind_tag (operator_kind operator) }
{
    if operator == AND_OPERATOR {
        MUST_TAG
    } else {
        SHOULD_TAG
    }
}

// One clause more, whose query has `len` bytes. One that analyzes to nothing is not kept, yet its conjunction alters the one before.
pub fn added(s: Sum, operator: u8, lead: Lead, len: usize) -> Sum
    requires { (s.count ≤ 100000) × (s.bytes + len ≤ 1000000) }
    ensures sums { (cs : Clauses) (q : Made) → Sums cs s.count s.tag s.bytes → len ≡ made_length q → Sums (with_made operator (conjunction_of lead.conjunction) (modifier_of lead.modifier) cs q) result.count result.tag result.bytes }
    ensures bound { (result.bytes ≤ s.bytes + len + 3) × (3 * s.count ≤ s.bytes → 3 * result.count ≤ result.bytes) }
{
    if len == 0 {
        return Sum {
            tag: tag_before(operator, lead.conjunction, s.tag),
            ..s
        };
    }
    Sum {
        count: s.count + 1,
        tag: tag_after(operator, lead.conjunction, lead.modifier),
        bytes: s.bytes + HEADER + len,
    }
}
