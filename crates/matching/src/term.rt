// A term is true of a record where an entry has its field and its text.
ghost use Rattle.std.specs.Prelude.{◌≡◌, true, false};
ghost use Rattle.rules.specs.Bytes.{each};
ghost use Rattle.rules.specs.Lists.{entry_of};
ghost use Rattle.rules.specs.Numbers.{term_tag};
ghost use Rattle.matching.specs.Truth.{StoredAs, Truth, Known};

use super::record::Record;
use entries::slots::{find_term, is_missing};
use parts::part::{body, rest};

// Stays: `term_true` and `term_missing` are one call each, of `find_term` and `is_missing`, whose answers mean different things.
pub fn term_true(q: &[u8], r: &Record) -> bool
    requires { StoredAs term_tag q.now × Known r.now }
    ensures { Truth q.now (each entry_of r.now.entries.now) result }
{
    let b = body(q);
    find_term(body(b), body(rest(b)), r.entries, r.from, r.slots)
}

// Whether the slots say that it is false.
pub fn term_missing(q: &[u8], r: &Record) -> bool
    requires { StoredAs term_tag q.now × Known r.now }
    ensures { result ≡ true → Truth q.now (each entry_of r.now.entries.now) false }
{
    let b = body(q);
    is_missing(body(b), body(rest(b)), r.entries, r.from, r.slots)
}
