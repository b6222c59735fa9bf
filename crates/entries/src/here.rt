// Whether an entry, or some entry of a record, has a field and a text.
ghost use Rattle.std.specs.Prelude.{◌≡◌, Bool, true};
ghost use Rattle.rules.specs.Bytes.{every, each, some};
ghost use Rattle.rules.specs.Lists.{Entry, is_entry, entry_of};
ghost use Rattle.rules.specs.Matching.{is_here, has_term};
ghost use Rattle.entries.specs.Search.{Takes, Tests};

use super::entry::{field, is_place, text};
use parts::part::{rest, size_of};
use stretches::same;

// The text first: entries of one length differ there sooner than in the field. Not inlined, so that `is_here` is small enough to be.
#[inline(never)]
fn has_both(f: &[u8], t: &[u8], e: &[u8]) -> bool
    requires { is_entry e.now ≡ true }
    ensures { result ≡ is_here f.now t.now (entry_of e.now) }
{
    is_place(e) && same(t, text(e)) && same(f, field(e))
}

// Whether the entry has this field and this text. Its length alone tells most others apart, and a search goes past those with no call.
#[inline]
pub fn is_here(f: &[u8], t: &[u8], e: &[u8]) -> bool
    requires { is_entry e.now ≡ true }
    ensures { result ≡ is_here f.now t.now (entry_of e.now) }
{
    let n = size_of(e);
    n >= f.len() && n - f.len() == t.len() + 10 && has_both(f, t, e)
}

// Whether the test passes some entry of the record.
pub fn any_entry<F: Fn(&[u8]) -> bool>(rec: &[u8], test: F) -> bool
    requires sound { every is_entry rec.now ≡ true }
    requires takes { Takes (F.pre test) }
    ensures { (P : Entry → Bool) → Tests (F.post test) P → result ≡ some P (each entry_of rec.now) }
{
    let mut e = rec;
    while !e.is_empty() {
        if test(e) {
            return true;
        }
        e = rest(e);
    }
    false
}

pub fn has_term(f: &[u8], t: &[u8], rec: &[u8]) -> bool
    requires { every is_entry rec.now ≡ true }
    ensures { result ≡ has_term (each entry_of rec.now) f.now t.now }
{
    any_entry(rec, |e| is_here(f, t, e))
}
