// The lexer: the whole text becomes a row of tokens over unescaped bytes, or is refused for its first fault from the left, which has a place.
#![tactic(auto)]

ghost use Rattle.std.specs.Prelude.{◌≡◌, true, ◌++◌, ◌+◌, ◌*◌, ◌≤◌, ◌<◌, length, take, drop};
ghost use Rattle.rules.specs.Numbers.{text_most};
ghost use Rattle.rules.specs.Bytes.{is_text};
ghost use Rattle.rules.specs.Analysis.{is_space};
ghost use Rattle.rules.specs.Lexing.{lex};
ghost use Rattle.row.specs.Row.{room_least, entry_at, entry};
ghost use Rattle.names.specs.Refusals.{answered_at};
ghost use Rattle.lexer.specs.Lexing.{Row};

use names::refusal::Fault;
use names::{END_CLASS, SPACE_CLASS, TEXT_MOST};
use row::{ABOVE_PLACE, ABOVE_SIZE, ENTRY, PLACE_HALF, SIZE_BYTE};
use tokens::Step;

mod tokens;

// Writes token n: its kind, its note, its place, and its text, which stands from its place on.
fn put_token(room: &mut [u8], n: usize, place: usize, token: Step)
    requires { (n < text_most) × (token.note < 8) × (place < text_most) × (token.len ≤ text_most) × (room_least ≤ length room.old) }
    ensures { room.new ≡ take (entry_at n) room.old ++ (entry token.kind token.note place token.len ++ drop (entry_at n + 4) room.old) }
{
    let at = TEXT_MOST + ENTRY * n;
    room[at..at + ENTRY].copy_from_slice(&[
        token.kind,
        token.note * ABOVE_PLACE + (place / PLACE_HALF) as u8,
        (place % PLACE_HALF * ABOVE_SIZE + token.len / SIZE_BYTE) as u8,
        (token.len % SIZE_BYTE) as u8,
    ]);
}

// The table's flag of whitespace.
#[tactic(auto, using(rules::proofs::Text::Classes::space_flag))]
fn is_space(c: u8) -> bool
    ensures { result ≡ is_space c }
{
    classes::class_of(c) % END_CLASS == SPACE_CLASS
}

// Lexes a text of at most 1,024 ASCII bytes into a room of at least 5,120. Gives the number of its tokens.
pub fn lex(text: &[u8], room: &mut [u8]) -> Result<usize, Fault>
    requires { (length text.now ≤ text_most) × (room_least ≤ length room.old) × (is_text text.now ≡ true) }
    ensures answer { result ≡ answered_at length (lex text.now) }
    ensures row { Row (lex text.now) room.new }
{
    // Stays: n is the answer, and a token ends where it says.
    let mut i = 0;
    let mut n = 0;
    while let Some(spaces) = text[i..].iter().position(|c| !is_space(*c)) {
        let at = i + spaces;
        let token = tokens::token_at(text, at, room)?;
        put_token(room, n, at, token);
        n += 1;
        i = token.next;
    }
    Ok(n)
}
