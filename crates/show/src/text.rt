// Bytes as they are shown: in hex, with escapes, as a field.
ghost use Rattle.std.specs.Prelude.{◌≡◌};
ghost use Rattle.rules.specs.Show.{hex, is_plain, shown, shown_field};
ghost use Rattle.show.specs.Lays.{Lays, hex_byte, shown_byte};

use crate::put::{digit, put, put_byte};

fn put_hex_byte(out: &mut [u8], at: usize, c: u8) -> usize
    ensures { Lays out.old at (hex_byte c) result out.new }
{
    let a = put_byte(out, at, digit(c / 16));
    put_byte(out, a, digit(c % 16))
}

pub fn put_hex(out: &mut [u8], at: usize, s: &[u8]) -> usize
    ensures { Lays out.old at (hex s.now) result out.new }
{
    let mut a = at;
    for c in s {
        a = put_hex_byte(out, a, *c);
    }
    a
}

// Whether a byte stands for itself.
fn is_plain(c: u8) -> bool
    ensures { result ≡ is_plain c }
{
    c.is_ascii_graphic() && c != b'\\' && c != b':'
}

fn put_shown_byte(out: &mut [u8], at: usize, c: u8) -> usize
    ensures { Lays out.old at (shown_byte c) result out.new }
{
    if is_plain(c) {
        return put_byte(out, at, c);
    }
    let a = put_byte(out, at, b'\\');
    put_hex_byte(out, a, c)
}

pub fn put_shown(out: &mut [u8], at: usize, s: &[u8]) -> usize
    ensures { Lays out.old at (shown s.now) result out.new }
{
    let mut a = at;
    for c in s {
        a = put_shown_byte(out, a, *c);
    }
    a
}

pub fn put_field(out: &mut [u8], at: usize, f: &[u8]) -> usize
    ensures { Lays out.old at (shown_field f.now) result out.new }
{
    if f.is_empty() {
        return put(out, at, b"\\");
    }
    put_shown(out, at, f)
}
