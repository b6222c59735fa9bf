// Where a clause begins behind a field name, and whether the text of its token is known to be one token: both passes ask.
ghost use Rattle.std.specs.Prelude.{◌≡◌, true, [], ◌∷◌, ◌≤◌, ◌<◌};
ghost use Rattle.rules.specs.Query.{word};
ghost use Rattle.rules.specs.Analysis.{tokenize};
ghost use Rattle.analysis.specs.Tokens.{spelled};
ghost use Rattle.row.specs.Row.{token_at};
ghost use Rattle.clauses.specs.Measured.{Rowed};
ghost use Rattle.clauses.specs.Starting.{Starts};

use crate::kinds::is_named;
use crate::leaf::is_one;
use crate::scope::{Row, Scope};
use names::FIELD_MOST;
use names::refusal::{Fault, Refusal};
use row::{is_word_at, note_at, text_at};

// The field in force by number, its analyzer, and the first token of the clause.
#[derive(Clone, Copy)]
pub struct Start {
    pub from: usize,
    pub analyzer: u8,
    pub i: usize,
}

// A field name and a colon may stand before the clause at i: it begins behind them, unless the name is too long.
pub fn clause_start(row: &Row, p: Scope, i: usize) -> Result<Start, Fault>
    requires { i ≤ 2000 }
    ensures { Starts row.now.room.now row.now.n i p.from p.analyzer result }
{
    if !is_named(row, i) {
        return Ok(Start {
            from: p.from,
            analyzer: p.analyzer,
            i,
        });
    }
    if FIELD_MOST < text_at(row.room, i).len() {
        return Err(Fault {
            refusal: Refusal::LongField,
            place: i,
        });
    }
    Ok(Start {
        from: i + 1,
        analyzer: note_at(row.room, i),
        i: i + 2,
    })
}

// That the text of the token at i is known to be one token: nobody need look for more.
pub fn one_at(row: &Row, i: usize, analyzer: u8) -> bool
    requires { i < row.now.n }
    ensures { result ≡ true → tokenize analyzer (token_at row.now.room.now i).text ≡ word 0 (spelled analyzer (token_at row.now.room.now i).text) ∷ [] }
{
    is_one(is_word_at(row.room, i), analyzer, text_at(row.room, i))
}
