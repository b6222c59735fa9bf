// Stretches of bytes: texts and fields, comparison, copy, clear. Short ones are tested in words that may overlap, the last one first;
// longer ones go by a loop without a way out before its end, which a compiler widens.
#![tactic(auto)]

ghost use Rattle.std.specs.Prelude.{◌≡◌, ◌≤◌, ◌<◌, length, take, replicate, eqb};
ghost use Rattle.rules.specs.Bytes.{is_text, is_field, same};

use names::{ASCII_MOST, FIELD_MOST};
use numbers::{big4, big8};

// How long a stretch is that two pairs of words cover.
pub const MIDDLE_LEAST: usize = 8;

pub const MIDDLE_MOST: usize = 32;

// ---- texts

// The top bit of each byte of a word.
const TOPS8: u64 = 0x8080_8080_8080_8080;

const TOPS4: u32 = 0x8080_8080;

// The top bits of the first eight bytes and of the first four: 0 exactly where these bytes are ASCII.
pub fn tops8(s: &[u8]) -> u64
    requires { 8 ≤ length s.now }
    ensures { eqb result 0 ≡ is_text (take 8 s.now) }
{
    big8(s) & TOPS8
}

fn tops4(s: &[u8]) -> u32
    requires { 4 ≤ length s.now }
    ensures { eqb result 0 ≡ is_text (take 4 s.now) }
{
    big4(s) & TOPS4
}

// Most texts are short: two words of four bytes that may overlap, or the first, the middle and the last byte.
fn is_short_text(s: &[u8]) -> bool
    requires { length s.now < 8 }
    ensures { result ≡ is_text s.now }
{
    let n = s.len();
    if n >= 4 {
        let e = n - 4;
        if tops4(&s[e..]) != 0 {
            return false;
        }
        return tops4(s) == 0;
    }
    if n == 0 {
        return true;
    }
    (s[0] | s[n / 2] | s[n - 1]) <= ASCII_MOST
}

fn is_long_text(s: &[u8]) -> bool
    ensures { result ≡ is_text s.now }
{
    let mut seen: u8 = 0;
    for i in 0..s.len() {
        seen |= s[i];
    }
    seen <= ASCII_MOST
}

// From eight to sixteen bytes.
fn is_pair_text(s: &[u8]) -> bool
    requires { (8 ≤ length s.now) × (length s.now ≤ 16) }
    ensures { result ≡ is_text s.now }
{
    let e = s.len() - 8;
    if tops8(&s[e..]) != 0 {
        return false;
    }
    tops8(s) == 0
}

// From eight to thirty-two bytes.
pub fn is_middle_text(s: &[u8]) -> bool
    requires { (8 ≤ length s.now) × (length s.now ≤ 32) }
    ensures { result ≡ is_text s.now }
{
    if s.len() <= 16 {
        return is_pair_text(s);
    }
    let e = s.len() - 16;
    if !is_pair_text(&s[e..]) {
        return false;
    }
    is_pair_text(&s[0..16])
}

fn is_longer_text(s: &[u8]) -> bool
    requires { 8 ≤ length s.now }
    ensures { result ≡ is_text s.now }
{
    if s.len() <= MIDDLE_MOST {
        return is_middle_text(s);
    }
    is_long_text(s)
}

// Whether every byte is ASCII.
pub fn is_text(s: &[u8]) -> bool
    ensures { result ≡ is_text s.now }
{
    if s.len() < MIDDLE_LEAST {
        return is_short_text(s);
    }
    is_longer_text(s)
}

pub fn is_field(s: &[u8]) -> bool
    ensures { result ≡ is_field s.now }
{
    s.len() <= FIELD_MOST && is_text(s)
}

// ---- comparison

// Stays: terms and fields are short, and the library's `==` goes byte by byte: with it a selection takes 10 to 22 % longer.
// So the ends are compared as words that may overlap, one width for 4 to 7 bytes and one for 8 to 16.

// What the first eight bytes of two stretches differ by, and the first four.
// Stays: as `big8` and `big4` of the crate `numbers`, of which each is one line.
fn differ8(a: &[u8], b: &[u8]) -> u64
    requires { (8 ≤ length a.now) × (8 ≤ length b.now) }
    ensures { eqb result 0 ≡ same (take 8 a.now) (take 8 b.now) }
{
    big8(a) ^ big8(b)
}

fn differ4(a: &[u8], b: &[u8]) -> u32
    requires { (4 ≤ length a.now) × (4 ≤ length b.now) }
    ensures { eqb result 0 ≡ same (take 4 a.now) (take 4 b.now) }
{
    big4(a) ^ big4(b)
}

fn same_short(a: &[u8], b: &[u8]) -> bool
    requires { (length a.now ≡ length b.now) × (length a.now < 8) }
    ensures { result ≡ same a.now b.now }
{
    let n = a.len();
    if n >= 4 {
        let e = n - 4;
        if differ4(&a[e..], &b[e..]) != 0 {
            return false;
        }
        return differ4(a, b) == 0;
    }
    if n == 0 {
        return true;
    }
    let m = n / 2;
    let l = n - 1;
    ((a[0] ^ b[0]) | (a[m] ^ b[m]) | (a[l] ^ b[l])) == 0
}

fn same_long(a: &[u8], b: &[u8]) -> bool
    requires { length a.now ≡ length b.now }
    ensures { result ≡ same a.now b.now }
{
    let mut seen: u8 = 0;
    for i in 0..a.len() {
        seen |= a[i] ^ b[i];
    }
    seen == 0
}

fn same_longer(a: &[u8], b: &[u8]) -> bool
    requires { (length a.now ≡ length b.now) × (8 ≤ length a.now) }
    ensures { result ≡ same a.now b.now }
{
    let n = a.len();
    if n > 16 {
        return same_long(a, b);
    }
    let e = n - 8;
    if differ8(&a[e..], &b[e..]) != 0 {
        return false;
    }
    differ8(a, b) == 0
}

// Whether two stretches are the same, lengths first.
pub fn same(a: &[u8], b: &[u8]) -> bool
    ensures { result ≡ same a.now b.now }
{
    if a.len() != b.len() {
        return false;
    }
    if a.len() < 8 {
        return same_short(a, b);
    }
    same_longer(a, b)
}

// ---- copy and clear

pub use numbers::copy;

pub fn clear(room: &mut [u8])
    ensures { room.new ≡ replicate (length room.old) 0 }
{
    room.fill(0);
}
