// Words: where the first token from a place on begins, and where it ends. In a word letters, digits and `_` hold together, and a byte that
// joins two letters or two digits does between them; so one byte's class is asked for at a time, and its neighbours' only at such a byte.
ghost use Rattle.std.specs.Prelude.{◌≡◌, false, ◌||◌, suc, ◌≤◌, ◌<◌, min, length};
ghost use Rattle.rules.specs.Words.{reach};
ghost use Rattle.rules.specs.InWords.{is_inner, value_at, is_bridge, is_within};
ghost use Rattle.analysis.specs.Words.{joins_by, Starts, Begins, Held};

use classes::class_of;
use names::{DIGIT_CLASS, LETTER_CLASS, MID_LETTERS_CLASS, MID_NUMBERS_CLASS, UNDERSCORE_CLASS};

// Stays: a place in a text stands in these contracts as a bound; a type of both would be made, with its proof, for at - 1, at and i in `is_within` alone.

// The byte between two others joins them, by their classes.
#[tactic(auto, using(std::proofs::lemmas::Bool::Decides::nat_tests), unfolding(crate::specs::Words::joins_by))]
fn joins(before: u8, mid: u8, behind: u8) -> bool
    ensures { result ≡ joins_by before mid behind }
{
    if LETTER_CLASS <= before {
        return LETTER_CLASS <= behind && mid / MID_LETTERS_CLASS % 2 == 1;
    }
    let are_digits = DIGIT_CLASS <= before && DIGIT_CLASS <= behind && behind < LETTER_CLASS;
    are_digits && mid / MID_NUMBERS_CLASS % 2 == 1
}

// The byte at i joins those beside it. Most bytes that end a word join nothing.
fn is_bridge(text: &[u8], i: usize) -> bool
    requires { (0 < i) × (i < length text.now) }
    ensures { result ≡ is_bridge text.now i }
{
    let mid = class_of(text[i]);
    if mid / MID_LETTERS_CLASS % 4 == 0 {
        return false;
    }
    if text.len() - i < 2 {
        return false;
    }
    let before = class_of(text[i - 1]);
    let behind = class_of(text[i + 1]);
    joins(before, mid, behind)
}

fn is_inner(text: &[u8], i: usize) -> bool
    requires { i < length text.now }
    ensures { result ≡ is_inner (value_at text.now (suc (suc i))) }
{
    UNDERSCORE_CLASS <= class_of(text[i])
}

// In a word it goes on at i, with a byte that holds or with one that joins.
fn goes_on(text: &[u8], i: usize) -> bool
    requires { (0 < i) × (i < length text.now) }
    ensures { result ≡ (is_inner (value_at text.now (suc (suc i))) || is_bridge text.now i) }
{
    is_inner(text, i) || is_bridge(text, i)
}

// A place stands in a word: there a chunk of it ended.
fn is_within(text: &[u8], at: usize) -> bool
    requires { at < length text.now }
    ensures { result ≡ is_within text.now at }
{
    if at == 0 {
        return false;
    }
    if is_inner(text, at - 1) {
        return goes_on(text, at);
    }
    if !is_inner(text, at) {
        return false;
    }
    at != 1 && is_bridge(text, at - 1)
}

// Where the first word begins, from a place on that stands in none, that has a letter or a digit: behind the last byte that no word has.
fn seek(text: &[u8], at: usize) -> usize
    requires { (at < length text.now) × (is_within text.now at ≡ false) }
    ensures { Starts text.now at result }
{
    let mut start = at;
    for i in at..text.len() {
        let class = class_of(text[i]);
        if DIGIT_CLASS <= class {
            return start;
        }
        if class < UNDERSCORE_CLASS {
            start = i + 1;
        }
    }
    text.len()
}

// Where the first token from a place on begins.
pub fn start_of(text: &[u8], at: usize) -> usize
    requires { at < length text.now }
    ensures { Starts text.now at result }
{
    if is_within(text, at) {
        return at;
    }
    seek(text, at)
}

// Where the bytes that hold together end, from a place on; `end` where all before it do. One look at the table a byte.
fn run_end(text: &[u8], from: usize, end: usize) -> usize
    requires { (from ≤ end) × (end ≤ length text.now) }
    ensures { Held text.now from end result }
{
    let run = &text[from..end];
    let breaks = run.iter().position(|&c| class_of(c) < UNDERSCORE_CLASS);
    from + breaks.unwrap_or(run.len())
}

// Where the word ends that begins at a place, or that the place stands in; `end` where it passes that. Only where a run of it ends is it
// asked whether the next byte joins it to another.
pub fn end_of(text: &[u8], start: usize, end: usize) -> usize
    requires { (start < end) × (end ≤ length text.now) × (Begins text.now start) }
    ensures { result ≡ min end (reach text.now (suc start)) }
{
    // Stays: a `for` is no plainer, since the place goes on by whole runs and no index is counted.
    let mut i = run_end(text, start + 1, end);
    while i < end {
        if !is_bridge(text, i) {
            return i;
        }
        i = run_end(text, i + 1, end);
    }
    end
}
