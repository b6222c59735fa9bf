// Tokens of a text, one after the other and without a copy: a token is a part of the text, lowercased where it is written out.
// Stays: an analyzer is a number and no enum, since the public functions take any, by `Next` and `written_byte`: all but 1, 2, 4 and 5 count as keyword.
ghost use Rattle.std.specs.Prelude.{◌≡◌, ◌≤◌, ◌<◌, ◌+◌, ◌-◌, min, max, true, false, length, MatchOption};
ghost use Rattle.rules.specs.Numbers.{chunk_most};
ghost use Rattle.rules.specs.Analysis.{is_words, is_left_out};
ghost use Rattle.analysis.specs.Tokens.{inside, wanted, Span, by_analyzer, spelled, written_byte, FoundWord, Found, Next};

use crate::stops::is_stop_word;
use crate::words::{end_of, start_of};
use names::{CHUNK_MOST, ENGLISH_ANALYZER, SIMPLE_ANALYZER, WHITESPACE_ANALYZER, WORDS_ANALYZER};

// A part of a text that is a token: where it starts and how many bytes it has.
#[derive(Drop)]
struct Piece {
    start: usize,
    len: usize,
}

// A token: a part of the text, and its position among the tokens, those that are left out counted too. Where there is none it has no bytes.
// Stays: no Option<Token>, since `Next` promises of a text without a further token too where the search ended, and at which position.
#[derive(Drop)]
pub struct Token {
    pub start: usize,
    pub len: usize,
    pub position: usize,
}

// A token has this byte.
#[tactic(auto, using(std::proofs::lemmas::Bool::Decides::nat_tests), unfolding(crate::specs::Tokens::inside))]
fn is_inside(analyzer: u8, c: u8) -> bool
    ensures { result ≡ inside analyzer c }
{
    match analyzer {
        WHITESPACE_ANALYZER => !classes::is_gap(c),
        SIMPLE_ANALYZER => classes::is_letter(c),
        _ => true,
    }
}

// Stays: text, analyzer and place are the parameters of the public `next_token`, and the functions below hand them on as they came.

// The first place from `from` on, before `end`, where bytes of a token stop (`want`) or begin; `end` where there is none.
fn span(text: &[u8], analyzer: u8, from: usize, end: usize, want: bool) -> usize
    requires { (from ≤ end) × (end ≤ length text.now) }
    ensures { Span (wanted analyzer want) text.now from end result }
{
    let run = &text[from..end];
    let ends = run.iter().position(|&c| is_inside(analyzer, c) != want);
    from + ends.unwrap_or(run.len())
}

// The analyzer takes a text as one token.
fn is_whole(analyzer: u8) -> bool
    ensures { result ≡ by_analyzer analyzer false false true }
{
    !matches!(analyzer, WHITESPACE_ANALYZER | SIMPLE_ANALYZER)
}

// Where a chunk that starts at `start` ends at the latest: a longer run of bytes is cut.
fn chunk_end(start: usize, end: usize) -> usize
    requires { start ≤ end }
    ensures { result ≡ start + min chunk_most (end - start) }
{
    start + CHUNK_MOST.min(end - start)
}

// The analyzer makes tokens of words.
pub fn is_words(analyzer: u8) -> bool
    ensures { result ≡ is_words analyzer }
{
    matches!(analyzer, WORDS_ANALYZER..=ENGLISH_ANALYZER)
}

// The first token of words from `at` on.
fn next_word(text: &[u8], at: usize) -> Option<Piece>
    requires { at < length text.now }
    ensures { MatchOption result (FoundWord text.now at (length text.now) 0) (λ p. FoundWord text.now at p.start p.len × 0 < p.len) }
{
    let n = text.len();
    let start = start_of(text, at);
    if n <= start {
        return None;
    }
    let end = end_of(text, start, chunk_end(start, n));
    Some(Piece {
        start,
        len: end - start,
    })
}

// The first token of runs from `at` on.
fn next_run(text: &[u8], analyzer: u8, at: usize) -> Option<Piece>
    requires { (at < length text.now) × (is_words analyzer ≡ false) }
    ensures { MatchOption result (Found analyzer text.now at (length text.now) 0) (λ p. Found analyzer text.now at p.start p.len × 0 < p.len) }
{
    let n = text.len();
    if is_whole(analyzer) {
        return Some(Piece {
            start: at,
            len: n - at,
        });
    }
    let start = span(text, analyzer, at, n, false);
    if n <= start {
        return None;
    }
    let end = span(text, analyzer, start, chunk_end(start, n), true);
    Some(Piece {
        start,
        len: end - start,
    })
}

// The first token from `at` on, be it left out or not.
fn next_piece(text: &[u8], analyzer: u8, at: usize) -> Option<Piece>
    ensures { MatchOption result (Found analyzer text.now at (max at (length text.now)) 0) (λ p. Found analyzer text.now at p.start p.len × 0 < p.len) }
{
    if text.len() <= at {
        return None;
    }
    if is_words(analyzer) {
        next_word(text, at)
    } else {
        next_run(text, analyzer, at)
    }
}

// English leaves out its stop words.
pub fn is_left_out(analyzer: u8, word: &[u8]) -> bool
    ensures { result ≡ is_left_out analyzer (spelled analyzer word.now) }
{
    analyzer == ENGLISH_ANALYZER && is_stop_word(word)
}

// The first token from `at` on that is kept, where the first of all that stand there would have the given position.
pub fn next_token(text: &[u8], analyzer: u8, at: usize, position: usize) -> Token
    requires { position ≤ at }
    ensures { Next analyzer text.now at position result.start result.len result.position }
{
    // Stays: position is part of the answer, and from goes on by pieces.
    let mut from = at;
    let mut position = position;
    while let Some(t) = next_piece(text, analyzer, from) {
        let end = t.start + t.len;
        if !is_left_out(analyzer, &text[t.start..end]) {
            return Token {
                start: t.start,
                len: t.len,
                position,
            };
        }
        from = end;
        position += 1;
    }
    Token {
        start: from.max(text.len()),
        len: 0,
        position,
    }
}

// A byte of a token as it is written out: simple and words lowercase.
#[tactic(auto, using(std::proofs::lemmas::Bool::Decides::nat_tests), unfolding(crate::specs::Tokens::written_byte))]
pub fn written(analyzer: u8, c: u8) -> u8
    ensures { result ≡ written_byte analyzer c }
{
    if analyzer == SIMPLE_ANALYZER || is_words(analyzer) {
        classes::lower(c)
    } else {
        c
    }
}
