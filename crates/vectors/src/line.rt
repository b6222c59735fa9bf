// A line of a list: its columns, which a blank ends, decimals, and bytes in hex.
ghost use Rattle.std.specs.Prelude.{true, ◌≡◌, ◌+◌, ◌≤◌, min, length};
ghost use Rattle.vectors.specs.Line.{EndsAt, decimal_of, digit_of, pair_at, Decoded, IsHex};

// Where the part that begins at `at` ends: before a byte b or at the end of all.
pub fn part_end(s: &[u8], at: usize, b: u8) -> usize
    requires { at ≤ length s.now }
    ensures { EndsAt s.now at b result }
{
    for i in at..s.len() {
        if s[i] == b {
            return i;
        }
    }
    s.len()
}

// The place behind a part's end, within the text.
pub fn behind(s: &[u8], end: usize) -> usize
    requires { end ≤ length s.now }
    ensures { result ≡ min (end + 1) (length s.now) }
{
    s.len().min(end + 1)
}

// The number that decimal digits make, of which the last four count.
pub fn decimal(s: &[u8]) -> usize
    ensures { result ≡ decimal_of 0 s.now }
{
    let mut n = 0;
    for c in s {
        n = n % 1000 * 10 + usize::from(*c % 16);
    }
    n
}

// The digits 0 to 9 and a to f.
pub fn digit(c: u8) -> u8
    ensures { (result ≡ digit_of c) × (result ≤ 15) }
{
    (c % 16 + c / 64 * 9) % 16
}

// The byte that the i-th pair of digits makes.
fn pair(hex: &[u8], i: usize) -> u8
    requires { i + i + 2 ≤ length hex.now }
    ensures { result ≡ pair_at hex.now i }
{
    digit(hex[i + i]) * 16 + digit(hex[i + i + 1])
}

// The bytes of a text in hex, as many as there is room for.
pub fn decode(hex: &[u8], out: &mut [u8]) -> usize
    ensures { Decoded hex.now out.old result out.new }
{
    let n = out.len().min(hex.len() / 2);
    for i in 0..n {
        out[i] = pair(hex, i);
    }
    n
}

// The digits are those of the bytes, no more and no fewer.
pub fn is_hex(bytes: &[u8], hex: &[u8]) -> bool
    ensures { (result ≡ true → IsHex bytes.now hex.now) × (IsHex bytes.now hex.now → result ≡ true) }
{
    if hex.len() != bytes.len() + bytes.len() {
        return false;
    }
    for (i, byte) in bytes.iter().enumerate() {
        if *byte != pair(hex, i) {
            return false;
        }
    }
    true
}
