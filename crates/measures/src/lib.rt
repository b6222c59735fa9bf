// Measures of a stored query that was checked: its weight and its largest minimum_should_match.
// Both go over the headers in reading order, into each part that holds a query and past each that holds none: one loop and no stack.
#![tactic(auto)]

ghost use Rattle.std.specs.Prelude.{◌≡◌, ◌+◌, ◌≤◌, ◌<◌, length, drop};
ghost use Rattle.rules.specs.Numbers.{boolean_tag};
ghost use Rattle.rules.specs.Bytes.{tag_of};
ghost use Rattle.rules.specs.Checked.{Stored};
ghost use Rattle.measures.specs.Measure.{worth_of, skip_of, least_of, Weighs, Largest};

use names::{
    BOOLEAN_FRONT, BOOLEAN_TAG, BOOST_FRONT, BOOST_TAG, CONSTANT_SCORE_TAG, HEADER, MUST_TAG,
    PHRASE_TAG,
};
use numbers::big2;
use parts::part::size_of;

// How far the next header is: inside the part where that holds a query, else behind it.
fn skip(t: &[u8]) -> usize
    requires { 3 ≤ length t.now }
    ensures { (result ≡ skip_of t.now) × (result < 65539) }
{
    let tag = t[0];
    match tag {
        BOOLEAN_TAG => BOOLEAN_FRONT,
        BOOST_TAG => BOOST_FRONT,
        CONSTANT_SCORE_TAG => HEADER,
        _ => {
            if tag >= MUST_TAG {
                HEADER
            } else {
                HEADER + size_of(t)
            }
        }
    }
}

fn onward(t: &[u8]) -> &[u8]
    requires { (3 ≤ length t.now) × (skip_of t.now ≤ length t.now) }
    ensures { result.now ≡ drop (skip_of t.now) t.now }
{
    let n = skip(t);
    &t[n..]
}

// What a header adds to the weight.
fn worth(tag: u8) -> usize
    ensures { (result ≡ worth_of tag) × (result ≤ 3) }
{
    match tag {
        PHRASE_TAG => 2,
        BOOLEAN_TAG => 3,
        _ => 1,
    }
}

// Where the minimum of a Boolean stands: behind its header and its own.
const MINIMUM_AT: usize = HEADER + HEADER;

// The minimum of the Boolean at the front, and 0 where none is there.
// Stays: `least_of` gives 0 where no Boolean stands, which the largest takes no notice of; an Option would be turned into it.
fn least(t: &[u8]) -> usize
    requires { (1 ≤ length t.now) × (tag_of t.now ≡ boolean_tag → 8 ≤ length t.now) }
    ensures { (result ≡ least_of t.now) × (result < 65536) }
{
    if t[0] == BOOLEAN_TAG {
        big2(&t[MINIMUM_AT..])
    } else {
        0
    }
}

// What the headers of a query say: its weight, and its largest minimum.
#[derive(Clone, Copy)]
struct Measures {
    weight: usize,
    largest: usize,
}

// Stays: the public `weight` and `largest` take bytes that are `Stored`, not a type that says so: their parameter may not get narrower.
fn measure(s: &[u8]) -> Measures
    requires { Stored s.now }
    ensures weighs { Weighs s.now result.weight }
    ensures largest { Largest s.now result.largest }
{
    let mut t = s;
    let mut so_far = Measures {
        weight: 0,
        largest: 0,
    };
    while !t.is_empty() {
        so_far.weight += worth(t[0]);
        so_far.largest = so_far.largest.max(least(t));
        t = onward(t);
    }
    so_far
}

pub fn weight(s: &[u8]) -> usize
    requires { Stored s.now }
    ensures { Weighs s.now result }
{
    measure(s).weight
}

pub fn largest(s: &[u8]) -> usize
    requires { Stored s.now }
    ensures { Largest s.now result }
{
    measure(s).largest
}
