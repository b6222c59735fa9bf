// Which entries a query looks for, in a row that is made once: a record with none of them is to the query as a record with no entry is. The row
// is by the hash of a field and a text, and may pass more than the query looks for; that costs time and changes no answer.
#![tactic(auto)]

ghost use Rattle.std.specs.Prelude.{◌≡◌, ◌<◌, true, ◌||◌, length};
ghost use Rattle.rules.specs.Bytes.{every, each, some};
ghost use Rattle.rules.specs.Checked.{Stored};
ghost use Rattle.rules.specs.Lists.{is_entry, entry_of};
ghost use Rattle.entries.specs.Slots.{slots_many, hash_of};
ghost use Rattle.wanted.specs.Wanted.{calls_by};
ghost use Rattle.wanted.specs.Marks.{print_of, is_marked, Marked, Behind, Looked, Marks};

use entries::entry::{field, is_place, text};
use entries::here::any_entry;
use entries::slots::{SLOTS, hash};
use names::{FIELD_MOST, FIELD_TAG, POSITION_BYTES, TEXT_TAG, WORD_TAG};
use parts::part::{body, is_part, rest};

// ---- the row: nothing, the print of the one hash that is wanted there, or that there are several
// Stays: `mark_query` takes the row as bytes, which its caller lends, and an enum of the three has two bytes.
// Stays: `mark_query` and `any_called` take the row as a slice, so that its length stands in the contracts.

const SEVERAL: u8 = 255;

fn print(n: usize) -> u8
    requires { n < 65536 }
    ensures { result ≡ print_of n }
{
    (n / SLOTS) as u8 + 1
}

fn is_marked(wanted: &[u8], n: usize) -> bool
    requires { (length wanted.now ≡ slots_many) × (n < 65536) }
    ensures { result ≡ is_marked wanted.now n }
{
    let v = wanted[n % SLOTS];
    v == print(n) || v == SEVERAL
}

fn mark(wanted: &mut [u8], n: usize)
    requires { (length wanted.old ≡ slots_many) × (n < 65536) }
    ensures { Marked wanted.old n wanted.new }
{
    let i = n % SLOTS;
    if wanted[i] == 0 {
        wanted[i] = print(n);
        return;
    }
    if wanted[i] != print(n) {
        wanted[i] = SEVERAL;
    }
}

// ---- marking what a query wants

// What stands behind a field, at any place of the query's bytes: a term's text or the first word of a phrase is marked. Whether it is neither,
// as in a range.
fn look_behind(wanted: &mut [u8], f: &[u8], t: &[u8]) -> bool
    requires { length wanted.old ≡ slots_many }
    ensures { Behind wanted.old f.now t.now wanted.new result }
{
    if is_part(t, TEXT_TAG) {
        mark(wanted, hash(f, body(t)));
        return false;
    }
    if !is_part(t, WORD_TAG) {
        return true;
    }
    let w = body(t);
    if w.len() >= POSITION_BYTES {
        mark(wanted, hash(f, &w[POSITION_BYTES..]));
    }
    false
}

// No field is so long: what only seems one, as a part's length may, is passed by where it can be told.
fn look(wanted: &mut [u8], t: &[u8]) -> bool
    requires { length wanted.old ≡ slots_many }
    ensures { Looked wanted.old t.now wanted.new result }
{
    if !is_part(t, FIELD_TAG) {
        return false;
    }
    let f = body(t);
    if f.len() > FIELD_MOST {
        return false;
    }
    look_behind(wanted, f, rest(t))
}

// The answer is whether the query may have a range. Every place of its bytes is looked at: what is no field there, but seems one, is marked too.
pub fn mark_query(query: &[u8], wanted: &mut [u8]) -> bool
    requires { length wanted.old ≡ slots_many }
    ensures { Marks query.now wanted.new result }
{
    let mut ranges = false;
    let mut t = query;
    while t.len() > 0 {
        ranges |= look(wanted, t);
        t = &t[1..];
    }
    ranges
}

// ---- asking

fn is_called(wanted: &[u8], ranges: bool, e: &[u8]) -> bool
    requires { (length wanted.now ≡ slots_many) × (is_entry e.now ≡ true) }
    ensures { result ≡ calls_by hash_of (is_marked wanted.now) (λ f. ranges) (entry_of e.now) }
{
    if !is_place(e) {
        return ranges;
    }
    is_marked(wanted, hash(field(e), text(e)))
}

// Whether some entry of the record is one that the query may look for.
pub fn any_called(wanted: &[u8], ranges: bool, rec: &[u8]) -> bool
    requires { (length wanted.now ≡ slots_many) × (every is_entry rec.now ≡ true) }
    ensures { result ≡ some (calls_by hash_of (is_marked wanted.now) (λ f. ranges)) (each entry_of rec.now) }
{
    any_entry(rec, |e| is_called(wanted, ranges, e))
}
