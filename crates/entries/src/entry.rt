// An entry of a record: its kind, its field, and its text and position or the bits of its number.
ghost use Rattle.std.specs.Prelude.{◌≡◌, ◌<◌, ◌^◌, true, false};
ghost use Rattle.rules.specs.Lists.{is_entry, entry_of};
ghost use Rattle.entries.specs.Entry.{numbers, is_place, is_of, field_of, text_of, position_of, bits_of};

use names::{FLOAT_TAG, PLACE_TAG, POSITION_BYTES, WHOLE_TAG};
use numbers::{big4, big8};
use parts::part::{body, rest, tag_of};

// Stays: docs/ANSWERS.md names these functions, so that none may ask for more than a slice; hence `is_entry` in each contract, and `float` as a flag.

// Whether it has a position and a text.
pub fn is_place(e: &[u8]) -> bool
    requires { is_entry e.now ≡ true }
    ensures { result ≡ is_place (entry_of e.now) }
{
    tag_of(e) == PLACE_TAG
}

// Whether it has a number of this kind.
pub fn is_of(float: bool, e: &[u8]) -> bool
    requires { is_entry e.now ≡ true }
    ensures { result ≡ is_of (numbers float) (entry_of e.now) }
{
    if float {
        return tag_of(e) == FLOAT_TAG;
    }
    tag_of(e) == WHOLE_TAG
}

pub fn field(e: &[u8]) -> &[u8]
    requires { is_entry e.now ≡ true }
    ensures { result.now ≡ field_of (entry_of e.now) }
{
    body(body(e))
}

pub fn text(e: &[u8]) -> &[u8]
    requires { (is_entry e.now ≡ true) × (is_place (entry_of e.now) ≡ true) }
    ensures { result.now ≡ text_of (entry_of e.now) }
{
    let w = body(rest(body(e)));
    &w[POSITION_BYTES..]
}

pub fn position(e: &[u8]) -> u64
    requires { (is_entry e.now ≡ true) × (is_place (entry_of e.now) ≡ true) }
    ensures { (result ≡ position_of (entry_of e.now)) × (result < 2 ^ 32) }
{
    big4(body(rest(body(e)))) as u64
}

pub fn number(e: &[u8]) -> u64
    requires { (is_entry e.now ≡ true) × (is_place (entry_of e.now) ≡ false) }
    ensures { result ≡ bits_of (entry_of e.now) }
{
    big8(body(rest(body(e))))
}
