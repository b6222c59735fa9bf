// One token: what begins with a byte that is no whitespace.
ghost use Rattle.std.specs.Prelude.{◌≡◌, true, false, cond, ◌∷◌, [], ◌+◌, ◌≤◌, ◌<◌, length, drop, get_or, eqb};
ghost use Rattle.rules.specs.Numbers.{text_most};
ghost use Rattle.rules.specs.Bytes.{is_text};
ghost use Rattle.rules.specs.Lexing.{term_kind, sign_kind, is_wildcard, word_kind, term_from, token_at};
ghost use Rattle.row.specs.Row.{room_least, Kept};
ghost use Rattle.lexer.specs.Tokens.{Makes, note_of, double_kind, bad_start, kind_some};

use names::refusal::{Fault, Refusal};
use names::{
    AND_KIND, CARET_KIND, CHUNK_MOST, CLOSE_KIND, COLON_KIND, LETTER_CLASS, MINUS_KIND, NOT_KIND,
    OPEN_KIND, OR_KIND, PLUS_KIND, QUOTED_KIND, TERM_KIND, TILDE_KIND,
};
use row::{NO_NOTE, WORD_NOTE};

// A token: its kind, its note, how many bytes its text has in the room from its place on, and where it ended in the input.
#[derive(Clone, Copy)]
pub struct Step {
    pub kind: u8,
    pub note: u8,
    pub len: usize,
    pub next: usize,
}

// The byte at i, and 0 past the last.
fn peek(text: &[u8], i: usize) -> u8
    ensures { result ≡ get_or text.now i 0 }
{
    if i < text.len() { text[i] } else { 0 }
}

// The kind of a token that is one byte.
// Stays: a kind is a byte and no enum, since `row::kind_at` gives the row's byte by a contract that docs/ANSWERS.md names, and the parser asks it for any room.
#[tactic(auto, unfolding(rules::specs::Lexing::sign_kind))]
fn sign_kind(c: u8) -> Option<u8>
    ensures { result ≡ kind_some (sign_kind c) }
{
    match c {
        b'+' => Some(PLUS_KIND),
        b'-' => Some(MINUS_KIND),
        b'!' => Some(NOT_KIND),
        b'(' => Some(OPEN_KIND),
        b')' => Some(CLOSE_KIND),
        b':' => Some(COLON_KIND),
        b'^' => Some(CARET_KIND),
        b'~' => Some(TILDE_KIND),
        _ => None,
    }
}

// `&&` and `||`.
// Stays: a byte, as of `sign_kind`.
#[tactic(auto, unfolding(crate::specs::Tokens::double_kind))]
fn double_kind(c: u8, d: u8) -> Option<u8>
    ensures { result ≡ double_kind c d }
{
    if c == b'&' && d == b'&' {
        Some(AND_KIND)
    } else if c == b'|' && d == b'|' {
        Some(OR_KIND)
    } else {
        None
    }
}

// The refusal of a byte that may begin no token.
#[tactic(auto, unfolding(crate::specs::Tokens::bad_start, rules::specs::Bytes::ascii, rules::specs::Bytes::some))]
fn bad_start(c: u8) -> Option<Refusal>
    ensures { result ≡ bad_start c }
{
    match c {
        b'[' | b']' | b'{' | b'}' => Some(Refusal::RangeBracket),
        b'*' | b'?' => Some(Refusal::Wildcard),
        _ => None,
    }
}

#[tactic(auto, unfolding(rules::specs::Bytes::ascii, rules::specs::Bytes::some))]
fn is_wildcard(c: u8) -> bool
    ensures { result ≡ is_wildcard c }
{
    matches!(c, b'*' | b'?')
}

// The kind of a finished unescaped text.
// Stays: a byte, as of `sign_kind`; every text has a kind, so there is no Option.
fn word_kind(word: &[u8]) -> u8
    ensures { result ≡ word_kind word.now }
{
    if word == b"AND".as_slice() {
        AND_KIND
    } else if word == b"OR".as_slice() {
        OR_KIND
    } else if word == b"NOT".as_slice() {
        NOT_KIND
    } else {
        TERM_KIND
    }
}

// The text of an operator is not kept.
fn kept_len(kind: u8, len: usize) -> usize
    ensures { result ≡ cond (eqb kind term_kind) len 0 }
{
    if kind == TERM_KIND { len } else { 0 }
}

// Stays: `word` is one of three tests for a note, and chooses no step.
// A term that is letters only is noted as a word, if it is no longer than a chunk.
#[tactic(auto, unfolding(crate::specs::Tokens::note_of))]
fn word_note(kind: u8, word: bool, len: usize) -> u8
    ensures { result ≡ note_of kind word len }
{
    if word && kind == TERM_KIND && len <= CHUNK_MOST {
        WORD_NOTE
    } else {
        NO_NOTE
    }
}

fn term_at(text: &[u8], at: usize, room: &mut [u8]) -> Result<Step, Fault>
    requires { (at ≤ length text.now) × (length text.now ≤ text_most) × (is_text text.now ≡ true) × (room_least ≤ length room.old) }
    ensures kept { Kept at room.old room.new }
    ensures makes { Makes result (term_from (length text.now) (drop at text.now)) text.now at room.new }
{
    let term = texts::read_term(text, at, room)?;
    if is_wildcard(peek(text, term.next)) {
        return Err(Fault {
            refusal: Refusal::Wildcard,
            place: term.next,
        });
    }
    let end = at + term.len;
    let kind = word_kind(&room[at..end]);
    Ok(Step {
        kind,
        note: word_note(kind, term.word, term.len),
        len: kept_len(kind, term.len),
        next: term.next,
    })
}

// The token that begins at `at`; its text goes into the room from there on. Most tokens are words: a letter is tested for first.
pub fn token_at(text: &[u8], at: usize, room: &mut [u8]) -> Result<Step, Fault>
    requires { (at < length text.now) × (length text.now ≤ text_most) × (is_text text.now ≡ true) × (room_least ≤ length room.old) }
    ensures kept { Kept at room.old room.new }
    ensures makes { Makes result (token_at (length text.now) (get_or text.now at 0) (drop (at + 1) text.now)) text.now at room.new }
{
    let c = text[at];
    if LETTER_CLASS <= classes::ascii_class(c) {
        return term_at(text, at, room);
    }
    if let Some(kind) = sign_kind(c) {
        return Ok(Step {
            kind,
            note: NO_NOTE,
            len: 0,
            next: at + 1,
        });
    }
    if let Some(kind) = double_kind(c, peek(text, at + 1)) {
        return Ok(Step {
            kind,
            note: NO_NOTE,
            len: 0,
            next: at + 2,
        });
    }
    if c == b'"' {
        let quote = texts::read_quoted(text, at, room)?;
        return Ok(Step {
            kind: QUOTED_KIND,
            note: NO_NOTE,
            len: quote.len,
            next: quote.next,
        });
    }
    if let Some(refusal) = bad_start(c) {
        return Err(Fault { refusal, place: at });
    }
    term_at(text, at, room)
}
