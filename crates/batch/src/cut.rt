// The cut of a slice into stored queries, each after its length of two bytes.
ghost use Rattle.std.specs.Prelude.{◌≡◌, true};
ghost use Rattle.rules.specs.Batch.{is_first, first_query, other_queries, read_queries};
ghost use Rattle.batch.specs.Cut.{cut_as};

use names::QUERIES_MOST;
use names::refusal::Refusal;
use numbers::big2;

// The bytes of a length.
const LENGTH: usize = 2;

fn is_first(s: &[u8]) -> bool
    ensures { result ≡ is_first s.now }
{
    if s.len() < LENGTH {
        return false;
    }
    big2(s) <= s.len() - LENGTH
}

pub fn first(s: &[u8]) -> &[u8]
    requires { is_first s.now ≡ true }
    ensures { result.now ≡ first_query s.now }
{
    let end = LENGTH + big2(s);
    &s[LENGTH..end]
}

pub fn others(s: &[u8]) -> &[u8]
    requires { is_first s.now ≡ true }
    ensures { result.now ≡ other_queries s.now }
{
    let end = LENGTH + big2(s);
    &s[end..]
}

// Stays: how many there are is known only at the end, so that there is no range to go over.
// How many queries there are.
pub fn cut_all(s: &[u8]) -> Result<usize, Refusal>
    ensures { result ≡ cut_as (read_queries s.now) }
{
    let mut n: usize = 0;
    let mut t = s;
    while t.len() > 0 {
        if !is_first(t) {
            return Err(Refusal::MalformedQuery);
        }
        n += 1;
        t = others(t);
    }
    if n > QUERIES_MOST {
        return Err(Refusal::ManyQueries);
    }
    Ok(n)
}
