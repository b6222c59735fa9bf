// Bytes laid into an output where they fit, and only counted where they do not: the same writers measure a text and write it.
ghost use Rattle.std.specs.Prelude.{◌≡◌, [], ◌∷◌, ◌≤◌};
ghost use Rattle.rules.specs.Show.{digit, decimal};
ghost use Rattle.show.specs.Lays.{Lays};

use stretches::copy;

// Places end at 2^62, so that no sum overflows: no text is as long.
const PLACES: usize = 0x4000_0000_0000_0000;

// Stays: a struct of `out` and `at` would be no plainer: `Lays out.old at s result out.new` would name two fields of what it was and two of what it is.
pub fn put(out: &mut [u8], at: usize, s: &[u8]) -> usize
    ensures { Lays out.old at s.now result out.new }
{
    if PLACES < at {
        return at;
    }
    if PLACES - at < s.len() {
        return at;
    }
    let e = at + s.len();
    if out.len() < e {
        return e;
    }
    copy(out, at, s)
}

pub fn put_byte(out: &mut [u8], at: usize, b: u8) -> usize
    ensures { Lays out.old at (b ∷ []) result out.new }
{
    if PLACES <= at {
        return at;
    }
    if out.len() <= at {
        return at + 1;
    }
    out[at] = b;
    at + 1
}

// The letter `a` stands for ten.
const LETTERS: u8 = b'a' - 10;

// A number below 16 as a digit.
// Stays: `char::from_digit` answers an Option of a char, which would be opened and turned into a byte again.
pub fn digit(n: u8) -> u8
    requires { n ≤ 15 }
    ensures { result ≡ digit n }
{
    if n < 10 { b'0' + n } else { LETTERS + n }
}

// Stays: the library prints into what takes all its bytes, and here they are counted beyond the end of the output too, which is how `deliver` measures.
pub fn put_decimal(out: &mut [u8], at: usize, n: usize) -> usize
    ensures { Lays out.old at (decimal n) result out.new }
{
    if n < 10 {
        return put_byte(out, at, digit(n as u8));
    }
    let a = put_decimal(out, at, n / 10);
    put_byte(out, a, digit((n % 10) as u8))
}
