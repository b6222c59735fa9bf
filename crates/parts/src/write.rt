// Parts written into an output. Each writer lays its bytes at a place and gives the place behind them; all other bytes stay as they were.
// Lengths are known before the first byte, so a caller tests once that all of it fits, and no writer refuses.
ghost use Rattle.std.specs.Prelude.{◌+◌, ◌≤◌, ◌<◌, length};
ghost use Rattle.rules.specs.Numbers.{minimum_tag};
ghost use Rattle.rules.specs.Bytes.{big, part};
ghost use Rattle.numbers.specs.Laid.{Put, header};

use names::{MINIMUM_BYTES, MINIMUM_TAG};
use numbers::put_big2;
use stretches::copy;

// Stays: out and at go together through every writer, but docs/PROOFS.md names each by its contract, and `Put` speaks of both.
// The header of a part whose body has n bytes: the body is laid behind it, or stands there already.
pub fn put_header(out: &mut [u8], at: usize, tag: u8, n: usize) -> usize
    requires { (at + 3 ≤ length out.old) × (n < 65536) }
    ensures { Put out.old at (header tag n) result out.new }
{
    out[at] = tag;
    put_big2(out, at + 1, n)
}

pub fn put_part(out: &mut [u8], at: usize, tag: u8, s: &[u8]) -> usize
    requires { (at + 3 + length s.now ≤ length out.old) × (length s.now < 65536) }
    ensures { Put out.old at (part tag s.now) result out.new }
{
    let b = put_header(out, at, tag, s.len());
    copy(out, b, s)
}

pub fn put_minimum(out: &mut [u8], at: usize, m: usize) -> usize
    requires { (at + 5 ≤ length out.old) × (m < 65536) }
    ensures { Put out.old at (part minimum_tag (big 2 m)) result out.new }
{
    let b = put_header(out, at, MINIMUM_TAG, MINIMUM_BYTES);
    put_big2(out, b, m)
}
