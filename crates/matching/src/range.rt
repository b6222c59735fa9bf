// A range is true of a record where some value of its kind and field lies inside.
ghost use Rattle.std.specs.Prelude.{◌≡◌, true};
ghost use Rattle.rules.specs.Bytes.{each};
ghost use Rattle.rules.specs.Lists.{is_entry, entry_of};
ghost use Rattle.rules.specs.Matching.{lies_in, is_inside, has_range};
ghost use Rattle.rules.specs.Reading.{is_bound, bound_of};
ghost use Rattle.rules.specs.Stored.{range_tag};
ghost use Rattle.entries.specs.Entry.{numbers};
ghost use Rattle.matching.specs.Order.{keeps};
ghost use Rattle.matching.specs.Truth.{StoredAs, Truth};

use super::order::{is_number, ordered};
use super::record::Record;
use entries::entry::{field, is_of, number};
use entries::here::any_entry;
use names::{EXCLUDED_TAG, OPEN_TAG};
use numbers::big8;
use parts::part::{body, rest, tag_of};
use stretches::same;

// Stays: `float` and `upper` are what the definition `keeps` takes: which numbers, and which of the two bounds; each turns two arguments round.

// Whether x is on the inner side of a bound, the upper or the lower one. `float` says which kind of numbers.
fn keeps(float: bool, upper: bool, t: &[u8], x: u64) -> bool
    requires { is_bound t.now ≡ true }
    ensures { result ≡ keeps upper (numbers float) (bound_of t.now) x }
{
    let tag = tag_of(t);
    if tag == OPEN_TAG {
        return true;
    }
    let b = big8(body(t));
    let strict = tag == EXCLUDED_TAG;
    if upper {
        ordered(float, strict, x, b)
    } else {
        ordered(float, strict, b, x)
    }
}

// Its kind of numbers, its field and its bounds.
#[derive(Clone, Copy)]
struct Range<'a> {
    float: bool,
    field: &'a [u8],
    lower: &'a [u8],
    upper: &'a [u8],
    ghost from: { is_bound lower.now ≡ true },
    ghost to: { is_bound upper.now ≡ true },
}

impl Range<'_> {
    fn holds(&self, x: u64) -> bool
        ensures { result ≡ lies_in (numbers self.now.float) (bound_of self.now.lower.now) (bound_of self.now.upper.now) x }
    {
        is_number(self.float, x)
            && keeps(self.float, false, self.lower, x)
            && keeps(self.float, true, self.upper, x)
    }

    fn is_inside(&self, e: &[u8]) -> bool
        requires { is_entry e.now ≡ true }
        ensures { result ≡ is_inside (numbers self.now.float) self.now.field.now (bound_of self.now.lower.now) (bound_of self.now.upper.now) (entry_of e.now) }
    {
        is_of(self.float, e) && same(self.field, field(e)) && self.holds(number(e))
    }

    fn is_in(&self, r: &Record) -> bool
        ensures { result ≡ has_range (each entry_of r.now.entries.now) (numbers self.now.float) self.now.field.now (bound_of self.now.lower.now) (bound_of self.now.upper.now) }
    {
        any_entry(r.entries, |e| self.is_inside(e))
    }
}

pub fn range_true(float: bool, q: &[u8], r: &Record) -> bool
    requires { StoredAs (range_tag (numbers float)) q.now }
    ensures { Truth q.now (each entry_of r.now.entries.now) result }
{
    let b = body(q);
    let lower = rest(b);
    let range = Range {
        float,
        field: body(b),
        lower,
        upper: rest(lower),
    };
    range.is_in(r)
}
