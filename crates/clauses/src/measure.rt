// The measuring pass: it follows the grammar and answers a refusal, or lengths. It writes nothing, so that a refusal
// leaves the output as it was and the length of the whole is known before the first byte is written.
// The field in force is handed down as a number: 0 for the default field, k + 1 for the text of token k.
ghost use Rattle.std.specs.Prelude.{◌≡◌, true, Ok, ℕ, ◌+◌, ◌-◌, ◌≤◌, ◌<◌};
ghost use Rattle.rules.specs.Numbers.{Read, on_read, and_then};
ghost use Rattle.rules.specs.Setup.{Setup};
ghost use Rattle.rules.specs.Parsing.{Made, Kept, is_at, boost_at, closed_at, query_found};
ghost use Rattle.names.specs.Refusals.{coded_fault};
ghost use Rattle.row.specs.Row.{tokens_of, name_from};
ghost use Rattle.counted.specs.Kinds.{made_length};
ghost use Rattle.clauses.specs.Leaves.{leaf_kind, leaf_fault, leaf_at};
ghost use Rattle.clauses.specs.Measured.{Rowed, Fielded, Tuned, MeansFound, MeansKept, WithinClause, WithinClauses, MeantClause, MeantClauses};
ghost use Rattle.clauses.specs.Starting.{WithinBoost};

use crate::kinds;
use crate::kinds::{Clause, is_at};
use crate::leaf::leaf_len;
use crate::scope::{Row, Scope};
use crate::start::{clause_start, one_at};
use boost::numeral::fault;
use counted::{Counted, Sum};
use names::refusal::{Fault, Refusal};
use names::{
    BOOST_FRONT, BRACKETS_MOST, CARET_KIND, CLOSE_KIND, END_KIND, NO_TAG, OPEN_KIND, QUOTED_KIND,
    TERM_KIND, TILDE_KIND,
};
use row::{field_part, kind_at, text_at};

// A boost of what analyzes to nothing is nothing.
fn boosted_len(len: usize) -> usize
    requires { len ≤ 1000000 }
    ensures { (result ≤ len + 7) × ((len ≡ 0 → result ≡ 0) × ((len ≡ 0 → ⊥) → result ≡ 7 + len)) }
{
    if len == 0 {
        return 0;
    }
    BOOST_FRONT + len
}

// A boost may follow at i what has `len` bytes.
fn with_boost(row: &Row, len: usize, i: usize) -> Result<Clause, Fault>
    requires { (i ≤ row.now.n) × (len ≤ 1000000) }
    ensures means { (st : Setup) (m : Made) → len ≡ made_length m → MeansFound result (boost_at st (tokens_of row.now.room.now row.now.n) m i) }
    ensures within { WithinBoost (tokens_of row.now.room.now row.now.n) row.now.n i len result }
{
    if !is_at(row, CARET_KIND, i) {
        return Ok(Clause { len, next: i });
    }
    if !is_at(row, TERM_KIND, i + 1) {
        return Err(Fault {
            refusal: Refusal::NoNumeral,
            place: i + 1,
        });
    }
    let numeral = i + 1;
    if let Err(refusal) = fault(text_at(row.room, numeral)) {
        return Err(Fault {
            refusal,
            place: numeral,
        });
    }
    Ok(Clause {
        len: boosted_len(len),
        next: i + 2,
    })
}

// The refusal of a tilde behind a term, or behind a quote.
// Stays: the definition of this name takes the Bool; a closure for the refusal would say the same in more words.
fn leaf_fault(plain: bool) -> Refusal
    ensures { result ≡ coded_fault (leaf_fault plain) }
{
    if plain {
        Refusal::FuzzyTerm
    } else {
        Refusal::SloppyPhrase
    }
}

// The term or the quote at i, in the field in force.
fn measure_leaf(row: &Row, p: Scope, plain: bool, i: usize) -> Result<Clause, Fault>
    requires { (Fielded row.now.room.now row.now.n row.now.default.now p.from) × (is_at (leaf_kind plain) (tokens_of row.now.room.now row.now.n) i ≡ true) × (i ≤ 4000) }
    ensures means { (st : Setup) (o : ℕ) → Tuned st o row.now.room.now row.now.n row.now.default.now p.from p.analyzer → MeansFound result (leaf_at plain st (tokens_of row.now.room.now row.now.n) (name_from row.now.room.now row.now.default.now p.from) i) }
    ensures within { WithinClause (tokens_of row.now.room.now row.now.n) row.now.n i result }
{
    let next = i + 1;
    if is_at(row, TILDE_KIND, next) {
        return Err(Fault {
            refusal: leaf_fault(plain),
            place: next,
        });
    }
    let field = field_part(row.room, row.default, p.from);
    let text = text_at(row.room, i);
    let one = one_at(row, i, p.analyzer);
    let len = leaf_len(plain, one, text, p.analyzer, field.len());
    with_boost(row, len, next)
}

// What a query in brackets gives, from its clauses: the bracket closes, and a boost may follow.
fn closing(row: &Row, g: Counted) -> Result<Clause, Fault>
    requires { (i : ℕ) × WithinClauses (tokens_of row.now.room.now row.now.n) row.now.n i (Ok g) }
    ensures means { (st : Setup) (o : Read Kept) → MeansKept (Ok g) o → MeansFound result (and_then (on_read query_found o) (closed_at st (tokens_of row.now.room.now row.now.n))) }
    ensures within { (i : ℕ) → i < row.now.n → WithinClauses (tokens_of row.now.room.now row.now.n) row.now.n (i + 1) (Ok g) → WithinClause (tokens_of row.now.room.now row.now.n) row.now.n i result }
{
    if !is_at(row, CLOSE_KIND, g.next) {
        return Err(Fault {
            refusal: Refusal::OpenBracket,
            place: g.next,
        });
    }
    with_boost(row, g.sum.query_len(), g.next + 1)
}

// One clause at i.
#[cycle(measure_clause_measure_query)]
fn measure_clause(row: &Row, p: Scope, i: usize) -> Result<Clause, Fault>
    requires { (Fielded row.now.room.now row.now.n row.now.default.now p.from) × (i ≤ 2000) × (p.depth ≤ 24) }
    ensures means { (st : Setup) → Tuned st p.operator row.now.room.now row.now.n row.now.default.now p.from p.analyzer → MeantClause st (tokens_of row.now.room.now row.now.n) row.now.n (name_from row.now.room.now row.now.default.now p.from) p.depth i result }
    ensures within { WithinClause (tokens_of row.now.room.now row.now.n) row.now.n i result }
{
    let start = clause_start(row, p, i)?;
    let t = kind_at(row.room, row.n, start.i);
    let q = Scope {
        from: start.from,
        analyzer: start.analyzer,
        ..p
    };
    let refusal = match t {
        TERM_KIND | QUOTED_KIND => {
            return measure_leaf(row, q, t == TERM_KIND, start.i);
        }
        OPEN_KIND if p.depth < BRACKETS_MOST => {
            let deeper = Scope {
                depth: p.depth + 1,
                ..q
            };
            let g = measure_query(row, deeper, start.i + 1)?;
            return closing(row, g);
        }
        OPEN_KIND => Refusal::ManyBrackets,
        END_KIND => Refusal::UnexpectedEnd,
        _ => Refusal::UnexpectedToken,
    };
    Err(Fault {
        refusal,
        place: start.i,
    })
}

// The clauses from `at` on, up to a closing bracket or the end.
#[cycle(measure_clause_measure_query)]
pub fn measure_query(row: &Row, p: Scope, at: usize) -> Result<Counted, Fault>
    requires { (Fielded row.now.room.now row.now.n row.now.default.now p.from) × (at ≤ row.now.n) × (p.depth ≤ 24) }
    ensures means { (st : Setup) → Tuned st p.operator row.now.room.now row.now.n row.now.default.now p.from p.analyzer → MeantClauses st (tokens_of row.now.room.now row.now.n) row.now.n (name_from row.now.room.now row.now.default.now p.from) p.depth at result }
    ensures within { WithinClauses (tokens_of row.now.room.now row.now.n) row.now.n at result }
{
    let mut i = at;
    let mut s = Sum {
        count: 0,
        tag: NO_TAG,
        bytes: 0,
    };
    // Stays: no index is counted: i goes on by what a clause took.
    while kinds::more_at(row, i) {
        let lead = kinds::lead_at(row, 0 < s.count, i);
        let clause = measure_clause(row, p, lead.next)?;
        s = kinds::added(s, p.operator, lead, clause.len);
        i = clause.next;
    }
    Ok(Counted { sum: s, next: i })
}
