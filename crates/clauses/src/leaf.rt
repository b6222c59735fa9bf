// Terms and phrases: how long the query of a text is, and its bytes.
ghost use Rattle.std.specs.Prelude.{◌≡◌, true, List, [], ◌∷◌, ◌++◌, ℕ, ◌+◌, ◌*◌, ◌-◌, ◌≤◌, ◌<◌, length};
ghost use Rattle.analysis.specs.Tokens.{OneWord};
ghost use Rattle.rules.specs.Numbers.{text_most, field_most, word_tag};
ghost use Rattle.rules.specs.Bytes.{part, big};
ghost use Rattle.rules.specs.Query.{word, term, phrase, boolean};
ghost use Rattle.rules.specs.Stored.{encode, encode_words};
ghost use Rattle.rules.specs.Analysis.{tokenize};
ghost use Rattle.rules.specs.Parsing.{operator_kind, term_clauses, term_of, from_first, phrase_of};
ghost use Rattle.analysis.specs.Tokens.{spelled};
ghost use Rattle.numbers.specs.Laid.{Put};
ghost use Rattle.counted.specs.Kinds.{made_length, made_bytes};
ghost use Rattle.clauses.specs.Leaves.{Tallied, term_row, leaf_of};
ghost use Rattle.clauses.specs.Written.{HasRoom};

use crate::kinds::operator_tag;
use analysis::tokens;
use names::{
    BOOLEAN_FRONT, BOOLEAN_TAG, FIELD_TAG, HEADER, PHRASE_TAG, POSITION_BYTES, SIMPLE_ANALYZER,
    TERM_TAG, TEXT_TAG, WHITESPACE_ANALYZER, WORD_TAG,
};
use numbers::put_big4;
use parts::write::{put_header, put_minimum, put_part};

// The bytes of a term beside its field and its text: in its body, with its header, and with that of a clause around it.
const TERM_BODY: usize = 2 * HEADER;

const TERM_FRONT: usize = 3 * HEADER;

const TERM_CLAUSE: usize = 4 * HEADER;

// Those of a word beside its text, how many more a term has, and those of a phrase beside its field and its words.
const WORD_FRONT: usize = HEADER + POSITION_BYTES;

const TERM_OVER_WORD: usize = TERM_FRONT - WORD_FRONT;

const PHRASE_FRONT: usize = 2 * HEADER;

#[derive(Drop)]
pub struct Tally {
    count: usize,
    bytes: usize,
}

// The tokens of a text: how many there are, and their bytes, with `each` more for every token.
// Stays: no index is counted, since the place goes on by what `next_token` found; and this loop, put_clauses and put_words are no one function that is handed a closure: of a closure that writes to what it captures
// the proof knows nothing (CONTRACTS.md, "Chains of iterators").
fn count_tokens(text: &[u8], analyzer: u8, each: usize) -> Tally
    requires { (each ≤ 44) × (length text.now ≤ text_most) }
    ensures { Tallied (tokenize analyzer text.now) each result.count result.bytes }
{
    let mut at: usize = 0;
    let mut position: usize = 0;
    let mut count: usize = 0;
    let mut bytes: usize = 0;
    loop {
        let t = tokens::next_token(text, analyzer, at, position);
        if t.len == 0 {
            return Tally { count, bytes };
        }
        count += 1;
        bytes = bytes + each + t.len;
        at = t.start + t.len;
        position = t.position + 1;
    }
}

// One token makes a term, several a Boolean of terms; 0 where there is none. The field has `field` bytes.
fn term_len(text: &[u8], analyzer: u8, field: usize) -> usize
    requires { (field ≤ field_most) × (length text.now ≤ text_most) }
    ensures made { (o : ℕ) (f : List ℕ) → length f ≡ field → result ≡ made_length (term_of o f (tokenize analyzer text.now)) }
    ensures bound { result ≤ 8 + 45 * length text.now }
{
    let t = count_tokens(text, analyzer, TERM_CLAUSE + field);
    if t.count == 0 {
        return 0;
    }
    if t.count == 1 {
        return t.bytes - HEADER;
    }
    BOOLEAN_FRONT + t.bytes
}

// One token makes a term, several a phrase; 0 where there is none.
// Stays: like `term_len` in its steps alone: what one token and several come to is all that they hold, and both differ.
fn phrase_len(text: &[u8], analyzer: u8, field: usize) -> usize
    requires { (field ≤ field_most) × (length text.now ≤ text_most) }
    ensures made { (f : List ℕ) → length f ≡ field → result ≡ made_length (phrase_of f (tokenize analyzer text.now)) }
    ensures bound { result ≤ 8 + 45 * length text.now }
{
    let t = count_tokens(text, analyzer, WORD_FRONT);
    if t.count == 0 {
        return 0;
    }
    if t.count == 1 {
        return t.bytes + TERM_OVER_WORD + field;
    }
    PHRASE_FRONT + field + t.bytes
}

// A word that is not left out.
fn is_one_word(known: bool, analyzer: u8, text: &[u8]) -> bool
    requires { known ≡ true → OneWord text.now }
    ensures { result ≡ true → tokenize analyzer text.now ≡ word 0 (spelled analyzer text.now) ∷ [] }
{
    known && !tokens::is_left_out(analyzer, text)
}

// The text is one token: all of it to a keyword, and to the others where it is known to be a word; English may leave it out.
pub fn is_one(known: bool, analyzer: u8, text: &[u8]) -> bool
    requires { known ≡ true → OneWord text.now }
    ensures { result ≡ true → tokenize analyzer text.now ≡ word 0 (spelled analyzer text.now) ∷ [] }
{
    match analyzer {
        WHITESPACE_ANALYZER | SIMPLE_ANALYZER => known,
        _ if tokens::is_words(analyzer) => is_one_word(known, analyzer, text),
        _ => !text.is_empty(),
    }
}

// Stays: `plain` and `one` are in the clauses of `leaf_len` and `write_text`, by which the cycle of both passes is proved (`leaf_of plain`); the limits on text,
// field and output in the contracts of this file are bounds of one length each, for which a type would be made anew at every token.

// How long the query of a term's text is, or of a quoted text. Where the text is known to be one token, nothing is counted.
pub fn leaf_len(plain: bool, one: bool, text: &[u8], analyzer: u8, field: usize) -> usize
    requires { (field ≤ field_most) × (length text.now ≤ text_most) × (one ≡ true → tokenize analyzer text.now ≡ word 0 (spelled analyzer text.now) ∷ []) }
    ensures made { (o : ℕ) (f : List ℕ) → length f ≡ field → result ≡ made_length (leaf_of plain o f (tokenize analyzer text.now)) }
    ensures bound { result ≤ 8 + 45 * length text.now }
{
    if one {
        return TERM_FRONT + field + text.len();
    }
    if plain {
        return term_len(text, analyzer, field);
    }
    phrase_len(text, analyzer, field)
}

// Lays a token's text as the analyzer spells it.
fn put_spelled(out: &mut [u8], at: usize, analyzer: u8, s: &[u8]) -> usize
    requires { at + length s.now ≤ length out.old }
    ensures { Put out.old at (spelled analyzer s.now) result out.new }
{
    for (k, &c) in s.iter().enumerate() {
        out[at + k] = tokens::written(analyzer, c);
    }
    at + s.len()
}

fn put_term(out: &mut [u8], at: usize, field: &[u8], analyzer: u8, s: &[u8]) -> usize
    requires { (at + 9 + length field.now + length s.now ≤ length out.old) × (length field.now ≤ field_most) × (length s.now ≤ text_most) }
    ensures { Put out.old at (encode (term field.now (spelled analyzer s.now))) result out.new }
{
    let b = put_header(out, at, TERM_TAG, TERM_BODY + field.len() + s.len());
    let c = put_part(out, b, FIELD_TAG, field);
    let d = put_header(out, c, TEXT_TAG, s.len());
    put_spelled(out, d, analyzer, s)
}

// A clause that holds a term.
fn put_clause(out: &mut [u8], at: usize, tag: u8, field: &[u8], analyzer: u8, s: &[u8]) -> usize
    requires { (at + 12 + length field.now + length s.now ≤ length out.old) × (length field.now ≤ field_most) × (length s.now ≤ text_most) }
    ensures { Put out.old at (part tag (encode (term field.now (spelled analyzer s.now)))) result out.new }
{
    let b = put_header(out, at, tag, TERM_FRONT + field.len() + s.len());
    put_term(out, b, field, analyzer, s)
}

fn put_word(out: &mut [u8], at: usize, position: u32, analyzer: u8, s: &[u8]) -> usize
    requires { (at + 7 + length s.now ≤ length out.old) × (length s.now ≤ text_most) }
    ensures { Put out.old at (part word_tag (big 4 position ++ spelled analyzer s.now)) result out.new }
{
    let b = put_header(out, at, WORD_TAG, POSITION_BYTES + s.len());
    let c = put_big4(out, b, position);
    put_spelled(out, c, analyzer, s)
}

// A clause for each token of the text.
fn put_clauses(out: &mut [u8], at: usize, tag: u8, field: &[u8], analyzer: u8, text: &[u8]) -> usize
    requires { (at + length (term_row tag field.now (tokenize analyzer text.now)) ≤ length out.old) × (length field.now ≤ field_most) × (length text.now ≤ text_most) }
    ensures { Put out.old at (term_row tag field.now (tokenize analyzer text.now)) result out.new }
{
    let mut from: usize = 0;
    let mut position: usize = 0;
    let mut w = at;
    loop {
        let t = tokens::next_token(text, analyzer, from, position);
        if t.len == 0 {
            return w;
        }
        let start = t.start;
        let end = start + t.len;
        w = put_clause(out, w, tag, field, analyzer, &text[start..end]);
        from = end;
        position = t.position + 1;
    }
}

// How far a position is behind the first one.
fn offset(position: usize, base: usize) -> u32
    requires { (base ≤ position) × (position ≤ text_most) }
    ensures { result ≡ position - base }
{
    (position - base) as u32
}

// A word for each token of the text, at positions from that of the first.
fn put_words(out: &mut [u8], at: usize, analyzer: u8, text: &[u8]) -> usize
    requires { (at + length (encode_words (from_first (tokenize analyzer text.now))) ≤ length out.old) × (length text.now ≤ text_most) }
    ensures { Put out.old at (encode_words (from_first (tokenize analyzer text.now))) result out.new }
{
    let first = tokens::next_token(text, analyzer, 0, 0);
    let base = first.position;
    let mut from: usize = 0;
    let mut position: usize = 0;
    let mut w = at;
    loop {
        let t = tokens::next_token(text, analyzer, from, position);
        if t.len == 0 {
            return w;
        }
        let start = t.start;
        let end = start + t.len;
        w = put_word(
            out,
            w,
            offset(t.position, base),
            analyzer,
            &text[start..end],
        );
        from = end;
        position = t.position + 1;
    }
}

// A Boolean of a clause for each token. Its front is laid last, when its length is known.
fn write_boolean(
    operator: u8,
    field: &[u8],
    analyzer: u8,
    text: &[u8],
    out: &mut [u8],
    at: usize,
) -> usize
    requires { (at + length (encode (boolean 0 (term_clauses (operator_kind operator) field.now (tokenize analyzer text.now)))) ≤ length out.old) × (length field.now ≤ field_most) × (length text.now ≤ text_most) × (length out.old ≤ 65000) }
    ensures { Put out.old at (encode (boolean 0 (term_clauses (operator_kind operator) field.now (tokenize analyzer text.now)))) result out.new }
{
    let w = put_clauses(
        out,
        at + BOOLEAN_FRONT,
        operator_tag(operator),
        field,
        analyzer,
        text,
    );
    let b = put_header(out, at, BOOLEAN_TAG, w - at - HEADER);
    put_minimum(out, b, 0);
    w
}

// A phrase of the tokens. Its header is laid last, when its length is known.
fn write_phrase(field: &[u8], analyzer: u8, text: &[u8], out: &mut [u8], at: usize) -> usize
    requires { (at + length (encode (phrase field.now (from_first (tokenize analyzer text.now)))) ≤ length out.old) × (length field.now ≤ field_most) × (length text.now ≤ text_most) × (length out.old ≤ 65000) }
    ensures { Put out.old at (encode (phrase field.now (from_first (tokenize analyzer text.now)))) result out.new }
{
    let b = put_part(out, at + HEADER, FIELD_TAG, field);
    let w = put_words(out, b, analyzer, text);
    put_header(out, at, PHRASE_TAG, w - at - HEADER);
    w
}

// The query of a term's text (plain) or of a quoted text; gives the place behind it, `at` where the text has no token.
// With `one` the text is known to be one token.
pub fn write_text(
    plain: bool,
    one: bool,
    operator: u8,
    field: &[u8],
    analyzer: u8,
    text: &[u8],
    out: &mut [u8],
    at: usize,
) -> usize
    requires { (HasRoom (leaf_of plain operator field.now (tokenize analyzer text.now)) at (length out.old)) × (length field.now ≤ field_most) × (length text.now ≤ text_most) × (length out.old ≤ 65000) × (one ≡ true → tokenize analyzer text.now ≡ word 0 (spelled analyzer text.now) ∷ []) }
    ensures { Put out.old at (made_bytes (leaf_of plain operator field.now (tokenize analyzer text.now))) result out.new }
{
    if one {
        return put_term(out, at, field, analyzer, text);
    }
    let t = tokens::next_token(text, analyzer, 0, 0);
    if t.len == 0 {
        return at;
    }
    let start = t.start;
    let end = start + t.len;
    let u = tokens::next_token(text, analyzer, end, t.position + 1);
    if u.len == 0 {
        return put_term(out, at, field, analyzer, &text[start..end]);
    }
    if plain {
        return write_boolean(operator, field, analyzer, text, out, at);
    }
    write_phrase(field, analyzer, text, out, at)
}
