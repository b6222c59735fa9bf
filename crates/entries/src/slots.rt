// Slots: where in a list the entries of a record stand, by a hash of the field and the text, so that a term is looked for at one place. They
// are noted record after record and never cleared: a place before a record's front says that it has no such entry. Where two entries that differ
// share a slot, it holds the record's last place, at which no entry begins: a term with that hash is looked for by a walk, as if there were no slots.
ghost use Rattle.std.specs.Prelude.{◌≡◌, ◌+◌, ◌<◌, ◌≤◌, ◌^◌, true, false, length, get_or};
ghost use Rattle.rules.specs.Bytes.{every, each};
ghost use Rattle.rules.specs.Lists.{is_entry, entry_of};
ghost use Rattle.rules.specs.Matching.{has_term};
ghost use Rattle.rules.specs.Numbers.{list_most};
ghost use Rattle.entries.specs.Slots.{tail_of, shape_of, hash_of, slots_many, slot_of, Before, Standing, Lands, NotedBy, Noted, Told};

use super::entry::{field, is_place, text};
use super::here::{has_term, is_here};
use numbers::{big4, wide};
use parts::part::rest;

pub const SLOTS: usize = 512;

// ---- the hash of a field and a text

// The last four bytes, or the first, the middle and the last of a shorter text. The last of at most three stands a half and a third from its front:
// by another reckoning than that of four bytes, which a compiler then reads as one word.
fn tail(t: &[u8]) -> u64
    ensures { (result ≡ tail_of t.now) × (result < 2 ^ 32) }
{
    let n = t.len();
    if n >= 4 {
        let e = n - 4;
        return big4(&t[e..]) as u64;
    }
    if n == 0 {
        return 0;
    }
    ((wide(t[0]) * 256 + wide(t[n / 2])) * 256 + wide(t[n / 2 + n / 3])) as u64
}

fn first(f: &[u8]) -> usize
    ensures { (result ≡ get_or f.now 0 0) × (result < 256) }
{
    f.first().map_or(0, |b| wide(*b))
}

// How long both are, and the field's first byte.
fn shape(f: &[u8], t: &[u8]) -> u64
    ensures { (result ≡ shape_of f.now t.now) × (result < 2 ^ 24) }
{
    ((t.len() % 256 * 256 + f.len() % 256) * 256 + first(f)) as u64
}

pub fn hash(f: &[u8], t: &[u8]) -> usize
    ensures { (result ≡ hash_of f.now t.now) × (result < 65536) }
{
    ((tail(t) * 0x3504_f335 + shape(f, t) * 0x5ebc_a6b5) / 0x1_0000_0000 % 65536) as usize
}

fn slot(f: &[u8], t: &[u8]) -> usize
    ensures { (result ≡ slot_of f.now t.now) × (result < slots_many) }
{
    hash(f, t) % SLOTS
}

// Stays: the record, where it stands and the slots are three parameters, since `note`, `is_missing` and `find_term` are named by docs/ANSWERS.md.

// ---- noting

// A field and a text that stand at this place of the list, in the record whose front is at `from`.
fn note_text(f: &[u8], t: &[u8], at: usize, rec: &[u8], from: usize, slots: &mut [u16])
    requires { (at < list_most) × (0 < length rec.now) × (from + length rec.now ≤ list_most) × Standing slots.old from rec.now }
    ensures { Lands slots.old from rec.now at f.now t.now slots.new }
{
    let i = slot(f, t);
    let held = slots[i] as usize;
    if held < from {
        slots[i] = at as u16;
        return;
    }
    let k = held - from;
    if k + 1 == rec.len() {
        return;
    }
    if is_here(f, t, &rec[k..]) {
        return;
    }
    slots[i] = (from + rec.len() - 1) as u16;
}

// The entry e stands at this place of the list.
fn note_entry(e: &[u8], at: usize, rec: &[u8], from: usize, slots: &mut [u16])
    requires { (is_entry e.now ≡ true) × (at < list_most) × (0 < length rec.now) × (from + length rec.now ≤ list_most) × Standing slots.old from rec.now }
    ensures { NotedBy slots.old from rec.now at (entry_of e.now) slots.new }
{
    if !is_place(e) {
        return;
    }
    note_text(field(e), text(e), at, rec, from, slots);
}

// The entries of a record whose front is at `from`.
pub fn note(rec: &[u8], from: usize, slots: &mut [u16])
    requires { Before slots.old from × (every is_entry rec.now ≡ true) × (from + length rec.now ≤ list_most) }
    ensures { Noted slots.new from rec.now × Before slots.new (from + length rec.now) }
{
    let mut e = rec;
    while !e.is_empty() {
        note_entry(e, from + (rec.len() - e.len()), rec, from, slots);
        e = rest(e);
    }
}

// ---- looking

// Whether the slots say that no entry of the record has this field and this text.
// Stays: docs/ANSWERS.md names both searches, which take any slice, and `Told` says nothing of an empty one: no slots.
pub fn is_missing(f: &[u8], t: &[u8], rec: &[u8], from: usize, slots: &[u16]) -> bool
    requires { Told slots.now from rec.now }
    ensures { result ≡ true → has_term (each entry_of rec.now) f.now t.now ≡ false }
{
    if slots.is_empty() {
        return false;
    }
    let i = slot(f, t);
    (slots[i] as usize) < from
}

// Whether some entry of the record has this field and this text: as the slots say, where they can tell.
pub fn find_term(f: &[u8], t: &[u8], rec: &[u8], from: usize, slots: &[u16]) -> bool
    requires { Told slots.now from rec.now × (every is_entry rec.now ≡ true) }
    ensures { result ≡ has_term (each entry_of rec.now) f.now t.now }
{
    if slots.is_empty() {
        return has_term(f, t, rec);
    }
    let i = slot(f, t);
    let p = slots[i] as usize;
    if p < from {
        return false;
    }
    let k = p - from;
    if k + 1 == rec.len() {
        return has_term(f, t, rec);
    }
    is_here(f, t, &rec[k..])
}
