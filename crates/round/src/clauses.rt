// What a row of stored clauses shows: which kinds it has, and whether it is one clause.
ghost use Rattle.std.specs.Prelude.{◌≡◌, true, ◌+◌, ◌<◌, ◌≤◌, length};
ghost use Rattle.rules.specs.Query.{Kind, Clauses};
ghost use Rattle.rules.specs.Stored.{kind_tag};
ghost use Rattle.rules.specs.Checked.{Are, StoredClauses};
ghost use Rattle.rules.specs.Rewriting.{is_needed, only_must_not, should_count, if_should};
ghost use Rattle.round.specs.Clauses.{is_one_clause};

use names::{FILTER_TAG, MUST_NOT_TAG, MUST_TAG, SHOULD_TAG};
use parts::part::rest;

pub fn is_needed(k: u8) -> bool
    ensures { (j : Kind) → kind_tag j ≡ k → result ≡ is_needed j }
{
    k == MUST_TAG || k == FILTER_TAG
}

// Are all the clauses MustNot?
// Stays: `StoredClauses` is clauses with their proof; a ghost field that holds them wants a law that two such proofs are one, longer than these three clauses.
pub fn only_must_not(s: &[u8]) -> bool
    requires { StoredClauses s.now }
    ensures { (cs : Clauses) → Are s.now cs → result ≡ only_must_not cs }
{
    let mut t = s;
    while !t.is_empty() {
        if t[0] != MUST_NOT_TAG {
            return false;
        }
        t = rest(t);
    }
    true
}

// How many of the clauses are Should.
pub fn should_count(s: &[u8]) -> usize
    requires { StoredClauses s.now }
    ensures { ((cs : Clauses) → Are s.now cs → result ≡ should_count cs) × (result ≤ length s.now) }
{
    // Stays: no index is counted: n is the answer, and a clause ends where its header says.
    let mut t = s;
    let mut n: usize = 0;
    while !t.is_empty() {
        n += usize::from(t[0] == SHOULD_TAG);
        t = rest(t);
    }
    n
}

// Is it one clause?
pub fn is_single(s: &[u8]) -> bool
    requires { StoredClauses s.now }
    ensures { (cs : Clauses) → Are s.now cs → result ≡ is_one_clause cs }
{
    !s.is_empty() && rest(s).is_empty()
}
