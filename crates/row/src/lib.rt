// The row of tokens in the room, for who parses it: kind, text and note of a token, and the field in force.
#![tactic(auto)]

ghost use Rattle.std.specs.Prelude.{◌≡◌, ◌≤◌, ◌<◌, length, eqb};
ghost use Rattle.rules.specs.Numbers.{text_most};
ghost use Rattle.rules.specs.Parsing.{token_of, start_of};
ghost use Rattle.row.specs.Row.{room_least, place_in, size_in, note_in, word_note, token_at, tokens_of, Below, Laid, name_from, Renoted};

use names::{END_KIND, TEXT_MOST};

// The row stands behind the unescaped bytes. A token's four bytes are its kind; its note, above the upper bits of its place; the lower bits of its
// place, above the upper bits of its length; the rest of its length.
pub const ENTRY: usize = 4;

pub const ABOVE_PLACE: u8 = 32;

pub const PLACE_HALF: usize = 32;

pub const ABOVE_SIZE: usize = 8;

pub const SIZE_BYTE: usize = 256;

// The notes that are no analyzer: none, and that of a term of letters only.
// Stays: a note is three bits of the row's byte, and `note_at`, which docs/ANSWERS.md names, gives them as they stand.
pub const NO_NOTE: u8 = 0;

pub const WORD_NOTE: u8 = 6;

// Where the token at i starts in the text, and its own text in the room.
fn start_at(room: &[u8], i: usize) -> usize
    requires { (i < text_most) × (room_least ≤ length room.now) }
    ensures { result ≡ place_in room.now i }
{
    let at = TEXT_MOST + ENTRY * i;
    usize::from(room[at + 1]) % PLACE_HALF * PLACE_HALF + usize::from(room[at + 2]) / ABOVE_SIZE
}

// How long its text is.
fn size_at(room: &[u8], i: usize) -> usize
    requires { (i < text_most) × (room_least ≤ length room.now) }
    ensures { result ≡ size_in room.now i }
{
    let at = TEXT_MOST + ENTRY * i;
    usize::from(room[at + 2]) % ABOVE_SIZE * SIZE_BYTE + usize::from(room[at + 3])
}

// Stays: each public function requires the room's length and the index itself, since docs/ANSWERS.md names it, and the parser lends it its room as a slice.
// The kind of the token at i of n, and the end's past the last.
pub fn kind_at(room: &[u8], n: usize, i: usize) -> u8
    requires { (n ≤ text_most) × (room_least ≤ length room.now) }
    ensures { result ≡ (token_of (tokens_of room.now n) i).kind }
{
    if i < n {
        room[TEXT_MOST + ENTRY * i]
    } else {
        END_KIND
    }
}

// Where the token at i of n starts in the text, and the end of the text past the last.
pub fn place_at(room: &[u8], n: usize, i: usize, end: usize) -> usize
    requires { (n ≤ text_most) × (room_least ≤ length room.now) }
    ensures { result ≡ start_of end (tokens_of room.now n) i }
{
    if i < n { start_at(room, i) } else { end }
}

// The unescaped text of the token at i.
pub fn text_at(room: &[u8], i: usize) -> &[u8]
    requires { (i < text_most) × (Below text_most room.now i) × (room_least ≤ length room.now) }
    ensures { result.now ≡ (token_at room.now i).text }
{
    let at = start_at(room, i);
    let end = at + size_at(room, i);
    &room[at..end]
}

// The part that names the field: the default field for 0, the text of token k for k + 1.
pub fn field_part<'a>(room: &'a [u8], default: &'a [u8], from: usize) -> &'a [u8]
    requires { (from ≤ text_most) × (Laid room.now from) × (room_least ≤ length room.now) }
    ensures { result.now ≡ name_from room.now default.now from }
{
    if from == 0 {
        return default;
    }
    text_at(room, from - 1)
}

// The note of the token at i.
pub fn note_at(room: &[u8], i: usize) -> u8
    requires { (i < text_most) × (room_least ≤ length room.now) }
    ensures { result ≡ note_in room.now i }
{
    room[TEXT_MOST + ENTRY * i + 1] / ABOVE_PLACE
}

// That the lexer found it to be a word.
pub fn is_word_at(room: &[u8], i: usize) -> bool
    requires { (i < text_most) × (room_least ≤ length room.now) }
    ensures { result ≡ eqb (note_in room.now i) word_note }
{
    note_at(room, i) == WORD_NOTE
}

// Notes a at the token at i. Its place, in the same byte, stays.
pub fn put_note(room: &mut [u8], i: usize, a: u8)
    requires { (i < text_most) × (room_least ≤ length room.old) × (a < 8) }
    ensures { Renoted i a room.old room.new }
{
    let at = TEXT_MOST + ENTRY * i + 1;
    room[at] = room[at] % ABOVE_PLACE + a * ABOVE_PLACE;
}
