// A part at the front of a slice: a tag, a length of two bytes and a body. What holds of it is proved once, over the tag.
#![tactic(auto, using(rules::proofs::Stored::Parts::whole_le, crate::proofs::Fronts::header_there))]

ghost use Rattle.std.specs.Prelude.{◌≡◌, ◌≤◌, ◌<◌, true, ◌&&◌, length, leb, eqb};
ghost use Rattle.rules.specs.Bytes.{is_empty, tag_of, size_of, whole_of, body_of, rest_of, is_part, is_field_part};
ghost use Rattle.parts.specs.Part.{Plain};

use names::{FIELD_MOST, FIELD_TAG, HEADER};
use numbers::big2;
use stretches::{is_field, is_text};

pub fn tag_of(s: &[u8]) -> u8
    requires { 1 ≤ length s.now }
    ensures { result ≡ tag_of s.now }
{
    s[0]
}

// The length that the header states.
pub fn size_of(s: &[u8]) -> usize
    requires { 3 ≤ length s.now }
    ensures { (result ≡ size_of s.now) × (result < 65536) }
{
    big2(&s[1..])
}

// Whether a header is there, and the length that it states.
pub fn whole(s: &[u8]) -> bool
    ensures { result ≡ whole_of s.now }
{
    s.len() >= HEADER && HEADER + size_of(s) <= s.len()
}

pub fn is_part(s: &[u8], tag: u8) -> bool
    ensures { result ≡ is_part tag s.now }
{
    whole(s) && tag_of(s) == tag
}

// The same with a body of n bytes.
pub fn is_part_of(s: &[u8], tag: u8, n: usize) -> bool
    ensures { result ≡ (is_part tag s.now && eqb (length (body_of s.now)) n) }
{
    is_part(s, tag) && body(s).len() == n
}

// Whether a part with a tag in this span stands at the front.
pub fn is_within(s: &[u8], low: u8, high: u8) -> bool
    ensures { result ≡ (whole_of s.now && (leb low (tag_of s.now) && leb (tag_of s.now) high)) }
{
    whole(s) && (low..=high).contains(&tag_of(s))
}

pub fn body(s: &[u8]) -> &[u8]
    requires { whole_of s.now ≡ true }
    ensures { result.now ≡ body_of s.now }
{
    let e = HEADER + size_of(s);
    &s[HEADER..e]
}

pub fn rest(s: &[u8]) -> &[u8]
    requires { whole_of s.now ≡ true }
    ensures { result.now ≡ rest_of s.now }
{
    let e = HEADER + size_of(s);
    &s[e..]
}

// Whether a part with a field in it stands at the front.
pub fn is_field_part(s: &[u8]) -> bool
    ensures { result ≡ is_field_part s.now }
{
    is_part(s, FIELD_TAG) && is_field(body(s))
}

// Whether a part with this tag stands at the front, with at least so many bytes in it and none behind it.
fn is_last(s: &[u8], tag: u8, least: usize) -> bool
    ensures { result ≡ (is_part tag s.now && (leb least (length (body_of s.now)) && is_empty (rest_of s.now))) }
{
    is_part(s, tag) && body(s).len() >= least && rest(s).is_empty()
}

// A quick test of a field and one part with this tag behind it, which holds at least so many bytes and ends where b does. It passes short
// ones that are ASCII throughout, headers too, so that one look at all the bytes is enough; what it does not pass may still be sound.
#[tactic(auto, using(crate::proofs::Plainly::plainly))]
pub fn is_plain(b: &[u8], tag: u8, least: usize) -> bool
    ensures { result ≡ true → Plain tag least b.now }
{
    b.len() <= FIELD_MOST && is_part(b, FIELD_TAG) && is_last(rest(b), tag, least) && is_text(b)
}
