// The reader of catalogue lists, by the same parts: that every record and every entry in it is sound, or else what is wrong.
#![tactic(auto)]

ghost use Rattle.std.specs.Prelude.{◌≡◌, ◌≤◌, true, length, drop, IfSome};
ghost use Rattle.names.specs.Refusals.{checked};
ghost use Rattle.rules.specs.Numbers.{place_tag};
ghost use Rattle.rules.specs.Bytes.{is_text, tag_of, every};
ghost use Rattle.rules.specs.Lists.{is_value, is_field_with, is_entry, is_record, read_list};
ghost use Rattle.lists.specs.List.{is_held, end_of, IsFirst, Holds};

use names::refusal::Refusal;
use names::{
    FIELD_TAG, FLOAT_TAG, HEADER, LIST_MOST, NUMBER_BYTES, PLACE_TAG, POSITION_BYTES, RECORD_TAG,
    VALUE_TAG, WHOLE_TAG, WORD_TAG,
};
use numbers::wide;
use parts::part::{body, is_field_part, is_part, is_part_of, rest, size_of, tag_of, whole};
use stored::read::is_word;
use stretches::tops8;

fn is_value(s: &[u8]) -> bool
    ensures { result ≡ is_value s.now }
{
    is_part_of(s, VALUE_TAG, NUMBER_BYTES)
}

// What stands behind the field of an entry with this tag: a position with a text, or a number.
fn is_held(tag: u8, s: &[u8]) -> bool
    ensures { result ≡ is_held tag s.now }
{
    if tag == PLACE_TAG {
        is_word(s)
    } else {
        is_value(s)
    }
}

fn is_fielded(tag: u8, b: &[u8]) -> bool
    ensures { result ≡ is_field_with (is_held tag) b.now }
{
    if !is_field_part(b) {
        return false;
    }
    let w = rest(b);
    is_held(tag, w) && rest(w).is_empty()
}

fn is_any_entry(s: &[u8]) -> bool
    ensures { result ≡ is_entry s.now }
{
    if !whole(s) {
        return false;
    }
    let b = body(s);
    match s[0] {
        PLACE_TAG => is_fielded(PLACE_TAG, b),
        WHOLE_TAG => is_fielded(WHOLE_TAG, b),
        FLOAT_TAG => is_fielded(FLOAT_TAG, b),
        _ => false,
    }
}

// ---- a quick test of short entries, most of which are ASCII behind their headers, so that a few words tell it. It reads each length once. What it
// does not pass may still be sound.

const SHORT_LEAST: usize = 16;

const SHORT_MOST: usize = 35;

// What two pairs of words cover, with the headers of the entry and of its field.
const THREE_WORDS: usize = 30;

// What an entry has besides its field and its text, or its field and its number, behind its own header.
const TEXT_AROUND: usize = HEADER + HEADER + POSITION_BYTES;

const NUMBER_AROUND: usize = HEADER + HEADER + NUMBER_BYTES;

const TWO_HEADERS: usize = HEADER + HEADER;

// A short part, with its header.
#[derive(Clone, Copy)]
struct Short<'a> {
    bytes: &'a [u8],
    ghost least: { 16 ≤ length bytes.now },
    ghost most: { length bytes.now ≤ 35 },
}

impl<'a> Short<'a> {
    // The part at the front, if it is a short one.
    fn first(s: &'a [u8]) -> Option<Short<'a>>
        ensures { IfSome result (λ p. IsFirst s.now p.bytes.now) }
    {
        if s.len() < SHORT_LEAST || s[1] != 0 {
            return None;
        }
        let e = HEADER + wide(s[2]);
        if e < SHORT_LEAST || e > SHORT_MOST || e > s.len() {
            return None;
        }
        Some(Short { bytes: &s[0..e] })
    }

    // Whether it is ASCII from the field in it on: its last two words, and the first one or two.
    fn is_ascii(self) -> bool
        ensures { result ≡ true → is_text (drop 6 self.entry.bytes.now) ≡ true }
    {
        let s = self.bytes;
        let e = s.len() - 8;
        let d = s.len() - 16;
        tops8(&s[e..]) == 0
            && tops8(&s[d..]) == 0
            && tops8(&s[TWO_HEADERS..]) == 0
            && (s.len() <= THREE_WORDS || tops8(&s[14..]) == 0)
    }

    // A field, and a position with a text.
    fn is_place(self) -> bool
        ensures { result ≡ true → is_field_with (is_held place_tag) (drop 3 self.entry.bytes.now) ≡ true }
    {
        let b = &self.bytes[HEADER..];
        let n = b.len();
        let f = size_of(b);
        if f > n - TEXT_AROUND {
            return false;
        }
        let at = HEADER + f;
        let t = &b[at..];
        size_of(t) == n - TWO_HEADERS - f
            && tag_of(b) == FIELD_TAG
            && tag_of(t) == WORD_TAG
            && self.is_ascii()
    }

    // A field of two to eight bytes, and a number: the word that ends where the field does tells it.
    fn is_number(self) -> bool
        ensures { result ≡ true → is_field_with is_value (drop 3 self.entry.bytes.now) ≡ true }
    {
        let s = self.bytes;
        let b = &s[HEADER..];
        let f = size_of(b);
        if f < 2 || f > 8 || b.len() != NUMBER_AROUND + f {
            return false;
        }
        let at = HEADER + f;
        let t = &b[at..];
        let w = f - 2;
        size_of(t) == NUMBER_BYTES
            && tag_of(b) == FIELD_TAG
            && tag_of(t) == VALUE_TAG
            && tops8(&s[w..]) == 0
    }

    // An entry, and nothing more.
    fn is_entry(self) -> bool
        ensures { result ≡ true → Holds (tag_of self.entry.bytes.now) (drop 3 self.entry.bytes.now) }
    {
        match self.bytes[0] {
            PLACE_TAG => self.is_place(),
            WHOLE_TAG => self.is_number(),
            FLOAT_TAG => self.is_number(),
            _ => false,
        }
    }
}

// Where the entry at the front ends, if the test passes.
fn quick_end(s: &[u8]) -> Option<usize>
    ensures { IfSome result (λ e. Some e ≡ end_of s.now) }
{
    let p = Short::first(s)?;
    if p.is_entry() {
        Some(p.bytes.len())
    } else {
        None
    }
}

// ---- entries, records, lists

fn any_end(s: &[u8]) -> Option<usize>
    ensures { result ≡ end_of s.now }
{
    if is_any_entry(s) {
        Some(HEADER + size_of(s))
    } else {
        None
    }
}

// Where the entry at the front ends, if it is sound.
fn entry_end(s: &[u8]) -> Option<usize>
    ensures { result ≡ end_of s.now }
{
    quick_end(s).or_else(|| any_end(s))
}

fn is_entries(s: &[u8]) -> bool
    ensures { result ≡ every is_entry s.now }
{
    let mut t = s;
    while !t.is_empty() {
        let Some(e) = entry_end(t) else {
            return false;
        };
        let u = &t[e..];
        t = u;
    }
    true
}

fn is_record(s: &[u8]) -> bool
    ensures { result ≡ is_record s.now }
{
    is_part(s, RECORD_TAG) && is_entries(body(s))
}

fn is_records(s: &[u8]) -> bool
    ensures { result ≡ every is_record s.now }
{
    let mut t = s;
    while !t.is_empty() {
        if !is_record(t) {
            return false;
        }
        let u = rest(t);
        t = u;
    }
    true
}

pub fn check_list(l: &[u8]) -> Result<(), Refusal>
    ensures { result ≡ checked (read_list l.now) }
{
    if l.len() > LIST_MOST {
        return Err(Refusal::LongList);
    }
    if is_records(l) {
        Ok(())
    } else {
        Err(Refusal::MalformedList)
    }
}
