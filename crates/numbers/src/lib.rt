// Big-endian numbers at the widths of the stored form: two, four and eight bytes, read at the front of a slice and
// written at a place.
#![tactic(auto)]

ghost use Rattle.std.specs.Prelude.{◌≡◌, ◌+◌, ◌≤◌, ◌<◌, length, take};
ghost use Rattle.rules.specs.Bytes.{of_big, big};
ghost use Rattle.numbers.specs.Laid.{Put};

// A byte as a wider number: an index and a sum ask for less so.
// Stays: docs/PROOFS.md and docs/ANSWERS.md name it, and its contract tells callers the bound.
pub fn wide(x: u8) -> usize
    ensures { (result ≡ x) × (result < 256) }
{
    usize::from(x)
}

// Stays: here and for the writers the library has a method at each width; a generic one needs a trait with its laws and an array for each width, to save bodies of one line.
pub fn big2(s: &[u8]) -> usize
    requires { 2 ≤ length s.now }
    ensures { (result ≡ of_big (take 2 s.now)) × (result < 65536) }
{
    usize::from(u16::from_be_bytes([s[0], s[1]]))
}

pub fn big4(s: &[u8]) -> u32
    requires { 4 ≤ length s.now }
    ensures { result ≡ of_big (take 4 s.now) }
{
    u32::from_be_bytes([s[0], s[1], s[2], s[3]])
}

pub fn big8(s: &[u8]) -> u64
    requires { 8 ≤ length s.now }
    ensures { result ≡ of_big (take 8 s.now) }
{
    u64::from_be_bytes([s[0], s[1], s[2], s[3], s[4], s[5], s[6], s[7]])
}

pub fn put_big2(out: &mut [u8], at: usize, v: usize) -> usize
    requires { (at + 2 ≤ length out.old) × (v < 65536) }
    ensures { Put out.old at (big 2 v) result out.new }
{
    out[at] = (v / 256) as u8;
    out[at + 1] = (v % 256) as u8;
    at + 2
}

pub fn put_big4(out: &mut [u8], at: usize, v: u32) -> usize
    requires { at + 4 ≤ length out.old }
    ensures { Put out.old at (big 4 v) result out.new }
{
    out[at] = (v / 16777216) as u8;
    out[at + 1] = (v / 65536 % 256) as u8;
    out[at + 2] = (v / 256 % 256) as u8;
    out[at + 3] = (v % 256) as u8;
    at + 4
}

pub fn put_big8(out: &mut [u8], at: usize, v: u64) -> usize
    requires { at + 8 ≤ length out.old }
    ensures { Put out.old at (big 8 v) result out.new }
{
    copy(out, at, &u64::to_be_bytes(v))
}

// Lays the bytes of s at a place of out, and gives the place behind them.
#[tactic(auto, using(crate::proofs::Laying::copied))]
pub fn copy(out: &mut [u8], at: usize, s: &[u8]) -> usize
    requires { at + length s.now ≤ length out.old }
    ensures { Put out.old at s.now result out.new }
{
    let end = at + s.len();
    out[at..end].copy_from_slice(s);
    end
}
