// Boost numerals: Rust's documented grammar for f32, read from the left, to the nearest 32-bit pattern.
// A text is tested for the words only where it begins with no digit, sign or point.
ghost use Rattle.std.specs.Prelude.{◌≡◌, ℕ, ◌<◌, ◌≤◌, length, get_or};
ghost use Rattle.names.specs.Refusals.{checked};
ghost use Rattle.rules.specs.Bytes.{same};
ghost use Rattle.rules.specs.Analysis.{lowercase};
ghost use Rattle.rules.specs.Numbers.{got};
ghost use Rattle.rules.specs.Numerals.{Numeral, infinity, is_minus, after_sign, exponent, after_digits, unsigned, signed, bits_of, numeral_bits};
ghost use Rattle.boost.specs.Numeral.{answer_of, by_digits, Fraction, Scaled, StandsFor, Parsed, Parses};

use crate::decimal::{scaled_down, scaled_up};
use crate::digits::{Digits, Run, SHORT_MOST, read};
use names::refusal::Refusal;
use names::{INFINITY, NUMERAL_MOST, SIGN, THE_NAN};

// The power of ten that digits are to be multiplied or divided by, cut off at 2^56.
#[derive(Drop)]
enum Scale {
    Times(u64),
    Over(u64),
}

// What a text with no sign of its own stands for.
#[derive(Drop)]
enum Unsigned<'a> {
    Infinite,
    NotNumber,
    Decimal(Digits<'a>, Scale),
}

fn is_minus(text: &[u8]) -> bool
    ensures { result ≡ is_minus text.now }
{
    matches!(text, [b'-', ..])
}

fn after_sign(text: &[u8]) -> &[u8]
    ensures { result.now ≡ after_sign text.now }
{
    match text {
        [b'-' | b'+', rest @ ..] => rest,
        _ => text,
    }
}

// An exponent's digits, which end the numeral.
// Stays: the definitions of these names take the Bool, here and in `signed`; a closure for the variant would say the same in more words.
fn exponent(down: bool, s: &[u8]) -> Option<Scale>
    ensures { (d f : ℕ) → Scaled result d f (exponent down d f s.now) }
{
    let e = read(s, 0);
    if s.is_empty() || !e.rest.is_empty() {
        return None;
    }
    Some(if down {
        Scale::Over(e.value)
    } else {
        Scale::Times(e.value)
    })
}

// What follows the digits: nothing, or an exponent. No exponent is times 10^0.
fn after_digits(s: &[u8]) -> Option<Scale>
    ensures { (d f : ℕ) → Scaled result d f (after_digits d f s.now) }
{
    match s {
        [] => Some(Scale::Times(0)),
        [b'e' | b'E', rest @ ..] => exponent(is_minus(rest), after_sign(rest)),
        _ => None,
    }
}

// The digits behind a point, where one stands first, read after the number of those before it.
fn behind_point(s: &[u8], value: u64) -> Run
    ensures { Fraction s.now value result.digits.now result.value result.rest.now }
{
    match s {
        [b'.', behind @ ..] => read(behind, value),
        _ => Run {
            digits: &s[..0],
            value: value.min(SHORT_MOST),
            rest: s,
        },
    }
}

// Digits, perhaps a point and further digits, perhaps an exponent.
fn decimal(s: &[u8]) -> Option<Unsigned>
    requires { length s.now ≤ 40 }
    ensures { Parsed result (by_digits s.now) }
{
    let whole = read(s, 0);
    let fraction = behind_point(whole.rest, whole.value);
    if whole.digits.is_empty() && fraction.digits.is_empty() {
        return None;
    }
    let scale = after_digits(fraction.rest)?;
    let digits = Digits {
        whole: whole.digits,
        fraction: fraction.digits,
        value: fraction.value,
    };
    Some(Unsigned::Decimal(digits, scale))
}

// Is the text the word w, in whatever letters?
fn is_word(s: &[u8], w: &[u8]) -> bool
    ensures { result ≡ same (lowercase s.now) (lowercase w.now) }
{
    s.eq_ignore_ascii_case(w)
}

// A text that begins with neither digit nor point.
fn word<'a>(s: &'a [u8]) -> Option<Unsigned<'a>>
    requires { 57 < get_or s.now 0 0 }
    ensures { Parsed result (unsigned s.now) }
{
    if is_word(s, b"inf") || is_word(s, b"infinity") {
        return Some(Unsigned::Infinite);
    }
    if is_word(s, b"nan") {
        return Some(Unsigned::NotNumber);
    }
    None
}

// A numeral with no sign of its own.
fn without_sign(s: &[u8]) -> Option<Unsigned>
    requires { length s.now ≤ 40 }
    ensures { Parsed result (unsigned s.now) }
{
    match s {
        [first, ..] if *first > b'9' => word(s),
        _ => decimal(s),
    }
}

// What the text stands for, its sign left aside.
fn parse(text: &[u8]) -> Result<Unsigned, Refusal>
    ensures { Parses text.now result }
{
    if text.len() > NUMERAL_MOST {
        return Err(Refusal::LongNumeral);
    }
    without_sign(after_sign(text)).ok_or(Refusal::BadNumeral)
}

// The pattern with its sign.
fn signed(minus: bool, pattern: u32) -> u32
    requires { pattern ≤ infinity }
    ensures { result ≡ signed minus pattern }
{
    if minus { SIGN + pattern } else { pattern }
}

fn bits(minus: bool, u: Unsigned) -> u32
    ensures { (o : Numeral) → StandsFor u.entry o → bits_of minus o ≡ got result }
{
    match u {
        Unsigned::Infinite => signed(minus, INFINITY),
        Unsigned::NotNumber => THE_NAN,
        Unsigned::Decimal(d, Scale::Times(x)) => signed(minus, scaled_up(&d, x)),
        Unsigned::Decimal(d, Scale::Over(x)) => signed(minus, scaled_down(&d, x)),
    }
}

// The bits of the 32-bit float that the text stands for. A long one is refused first.
pub fn numeral(text: &[u8]) -> Result<u32, Refusal>
    ensures { result ≡ answer_of (numeral_bits text.now) }
{
    let u = parse(text)?;
    Ok(bits(is_minus(text), u))
}

// Is the text a numeral? Its bits are not worked out.
pub fn fault(text: &[u8]) -> Result<(), Refusal>
    ensures { result ≡ checked (numeral_bits text.now) }
{
    parse(text)?;
    Ok(())
}
