// One rounding: the pattern nearest to a number of which the highest places are known, and whether anything lies below them.
ghost use Rattle.std.specs.Prelude.{◌≡◌, ◌⊎◌, not, ◌||◌, ◌+◌, ◌-◌, ◌^◌, ◌<◌, ◌≤◌, eqb};
ghost use Rattle.std.specs.Int.Count.{count_leading_zeros};
ghost use Rattle.boost.specs.Row.{up_to, Highest, Topped};
ghost use Rattle.boost.specs.Top.{halved, Rounded};

use crate::row::{BASE, Words};
use names::{EXPONENT_STEP, INFINITY};

// The bits of a word.
pub const WORD_BITS: u32 = 16;

// A significand has 24 places: with one more, a number tells which of two patterns is nearer. So many leading zeros has a 64-bit number of 25 places.
const KEPT_ZEROS: u32 = 39;

// So many words hold more than 25 places.
const TOP_WORDS: usize = 3;

// h half units to whole ones; `more`: something lies below them. A tie goes to the even one.
// Stays: `more` is what a tie asks, and both answers are numbers; there is no step to pass as a closure.
fn whole_of(h: u32, more: bool) -> u32
    requires { h < 2 ^ 25 }
    ensures { result ≡ halved h more }
{
    let q = h / 2;
    if h % 2 == 0 {
        return q;
    }
    if more { q + 1 } else { q + q % 2 }
}

// What is left over of two divisions: of those before, and the rest of one more.
pub fn with_rest(left: bool, rest: u64) -> bool
    ensures { result ≡ left || not (eqb rest 0) }
{
    left || rest != 0
}

// The pattern of w, in units of 2^c halves of the least float; `below`: something lies below them.
pub fn rounded(w: u64, below: bool, c: u32) -> u32
    requires w_bound { w < 2 ^ 63 }
    requires enough_places { (2 ^ 24 ≤ w) ⊎ (c ≡ 0) }
    requires c_bound { c < 450 }
    ensures { Rounded w below c result }
{
    // all places below the 25 highest are dropped
    let k = KEPT_ZEROS.saturating_sub(w.leading_zeros());
    let u = 1u64 << k;
    let more = with_rest(below, w % u);
    let h = (w / u) as u32;
    let p = (c + k) * EXPONENT_STEP + whole_of(h, more);
    p.min(INFINITY)
}

// The words from `low` to `len`, of which there are at most three.
fn highest(row: &Words, low: usize, len: usize) -> u64
    requires { (low ≤ len) × (len ≤ 18) × (len ≤ low + 3) }
    ensures { Highest row.now low len result }
{
    let mut w = 0u64;
    for i in (low..len).rev() {
        w = w * BASE + u64::from(row[i]);
    }
    w
}

// The pattern of the row's first `len` words, the highest of them not 0; `left`: something lies below the row.
pub fn pattern(row: &Words, len: usize, left: bool, c: u32) -> u32
    requires len_bound { len ≤ 18 }
    requires topped { Topped row.now len }
    requires enough_places { (2 ^ 24 ≤ up_to row.now len) ⊎ (c ≡ 0) }
    requires c_bound { c ≤ 150 }
    ensures { Rounded (up_to row.now len) left c result }
{
    let low = len.saturating_sub(TOP_WORDS);
    let w = highest(row, low, len);
    let rest = crate::row::used(row, low) as u64;
    rounded(w, with_rest(left, rest), c + WORD_BITS * (low as u32))
}
