// A phrase is true of a record where some whole number, possibly negative, added to all its positions finds every one. Tried are the numbers
// that put its first word, of position p, on an entry of its field and text, at x: then a word of position o stands at the y with
// y + p == o + x. Positions have 32 bits, so that neither sum overflows, and no sign is needed.
ghost use Rattle.std.specs.Prelude.{◌≡◌, ◌<◌, ◌^◌, true, false};
ghost use Rattle.rules.specs.Bytes.{every, each, some, all};
ghost use Rattle.rules.specs.Lists.{is_entry, entry_of};
ghost use Rattle.rules.specs.Matching.{is_at, follows_from, starts_on, has_phrase};
ghost use Rattle.rules.specs.Numbers.{phrase_tag};
ghost use Rattle.rules.specs.Reading.{is_word, word_of};
ghost use Rattle.matching.specs.Truth.{StoredAs, Truth, Known};

use super::record::Record;
use entries::entry::position;
use entries::here::{any_entry, is_here};
use entries::slots::is_missing;
use names::POSITION_BYTES;
use numbers::big4;
use parts::part::{body, rest};

// Words of a phrase, one behind the other.
#[derive(Clone, Copy)]
struct Words<'a> {
    bytes: &'a [u8],
    ghost sound: { every is_word bytes.now ≡ true },
}

// Whether the entry has this field and this text, at the y with y + p == a.
fn is_at(f: &[u8], t: &[u8], p: u32, a: u64, e: &[u8]) -> bool
    requires { is_entry e.now ≡ true }
    ensures { result ≡ is_at f.now t.now p a (entry_of e.now) }
{
    is_here(f, t, e) && position(e) + u64::from(p) == a
}

fn has_at(f: &[u8], t: &[u8], p: u32, a: u64, r: &Record) -> bool
    ensures { result ≡ some (is_at f.now t.now p a) (each entry_of r.now.entries.now) }
{
    any_entry(r.entries, |e| is_at(f, t, p, a, e))
}

// Whether each of the words stands as far from p as its entry from x.
fn follow(f: &[u8], p: u32, x: u64, ws: &Words, r: &Record) -> bool
    requires { x < 2 ^ 32 }
    ensures { result ≡ all (follows_from (each entry_of r.now.entries.now) f.now p x) (each word_of ws.now.bytes.now) }
{
    let mut s = ws.bytes;
    while s.len() > 0 {
        let w = body(s);
        let o = u64::from(big4(w));
        if !has_at(f, &w[POSITION_BYTES..], p, o + x, r) {
            return false;
        }
        s = rest(s);
    }
    true
}

fn starts_on(f: &[u8], p: u32, t: &[u8], ws: &Words, r: &Record, e: &[u8]) -> bool
    requires { is_entry e.now ≡ true }
    ensures { result ≡ starts_on (each entry_of r.now.entries.now) f.now p t.now (each word_of ws.now.bytes.now) (entry_of e.now) }
{
    if !is_here(f, t, e) {
        return false;
    }
    let x = position(e);
    follow(f, p, x, ws, r)
}

fn has_start(f: &[u8], p: u32, t: &[u8], ws: &Words, r: &Record) -> bool
    ensures { result ≡ some (starts_on (each entry_of r.now.entries.now) f.now p t.now (each word_of ws.now.bytes.now)) (each entry_of r.now.entries.now) }
{
    any_entry(r.entries, |e| starts_on(f, p, t, ws, r, e))
}

// Whether the slots say that some of the words is missing.
fn any_missing(f: &[u8], ws: &Words, r: &Record) -> bool
    requires { Known r.now }
    ensures { result ≡ true → has_phrase (each entry_of r.now.entries.now) f.now (each word_of ws.now.bytes.now) ≡ false }
{
    let mut s = ws.bytes;
    while s.len() > 0 {
        let w = body(s);
        if is_missing(f, &w[POSITION_BYTES..], r.entries, r.from, r.slots) {
            return true;
        }
        s = rest(s);
    }
    false
}

pub fn phrase_true(q: &[u8], r: &Record) -> bool
    requires { StoredAs phrase_tag q.now × Known r.now }
    ensures { Truth q.now (each entry_of r.now.entries.now) result }
{
    let b = body(q);
    let ws = rest(b);
    if ws.len() == 0 {
        return false; // a phrase has words
    }
    let words = Words { bytes: ws };
    if any_missing(body(b), &words, r) {
        return false;
    }
    let w = body(ws);
    let others = Words { bytes: rest(ws) };
    has_start(body(b), big4(w), &w[POSITION_BYTES..], &others, r)
}
