// Terms and quotes: their bytes go, unescaped, into the room from the token's own place on.
#![tactic(auto)]

ghost use Rattle.std.specs.Prelude.{◌≡◌, true, ℕ, Bool, List, ◌+◌, ◌≤◌, ◌<◌, length, get_or, take, drop};
ghost use Rattle.rules.specs.Numbers.{text_most, Read};
ghost use Rattle.rules.specs.Bytes.{is_text, all};
ghost use Rattle.rules.specs.Analysis.{is_letter, ends_term};
ghost use Rattle.rules.specs.Lexing.{Piece, term_text, quoted_text};
ghost use Rattle.row.specs.Row.{room_least, Kept};
ghost use Rattle.texts.specs.Texts.{Reads, Tells, Unescapes, Until};

use names::refusal::{Fault, Refusal};
use names::{END_CLASS, LETTER_CLASS};

// Where a text ended in the input, how many bytes it has in the room, and if it is a word: a term of letters only.
#[derive(Clone, Copy, Debug, PartialEq, Eq)]
pub struct Ended {
    pub next: usize,
    pub len: usize,
    // Stays: the flag goes with no value of its own, since where a text ended and its length hold of words and other texts alike.
    pub word: bool,
}

fn is_letter(c: u8) -> bool
    requires { c < 128 }
    ensures { result ≡ is_letter c }
{
    LETTER_CLASS <= classes::ascii_class(c)
}

fn ends_term(c: u8) -> bool
    requires { c < 128 }
    ensures { result ≡ ends_term c }
{
    classes::ascii_class(c) / END_CLASS % 2 == 1
}

// Letters stand for themselves. Gives how many the term begins with.
// Stays: `position`, and then `copy_from_slice`, takes 20 ns a word and not 11.
fn read_letters(term: &[u8], out: &mut [u8]) -> usize
    requires { (length term.now ≤ length out.old) × (is_text term.now ≡ true) }
    ensures within { result ≤ length term.now }
    ensures laid { take result out.new ≡ take result term.now }
    ensures letters { all is_letter (take result term.now) ≡ true }
{
    for (i, c) in term.iter().enumerate() {
        if !is_letter(*c) {
            return i;
        }
        out[i] = *c;
    }
    term.len()
}

// Lays the bytes from `from` on in `out`, up to the end of the text or to a byte that `ends` what is read. A backslash stands for the byte behind it.
fn unescape<F: Fn(u8) -> bool>(
    text: &[u8],
    from: usize,
    out: &mut [u8],
    ends: F,
) -> Result<Ended, Fault>
    requires { (from ≤ length text.now) × (length text.now ≤ from + length out.old) × ((i : ℕ) → i < length text.now → F.pre ends (get_or text.now i 0)) }
    ensures { (read : List ℕ → Read Piece) (stop : ℕ → Bool) → Unescapes (length text.now) read stop → Tells (λ c b. F.post ends c b) text.now stop → Until result read stop text.now from out.new }
{
    // Stays: the text goes on by one byte or two and the room by one, and len is the answer.
    let mut rest = &text[from..];
    let mut len = 0;
    while let [c, tail @ ..] = rest {
        if ends(*c) {
            break;
        }
        if *c != b'\\' {
            out[len] = *c;
            len += 1;
            rest = tail;
            continue;
        }
        let [byte, behind @ ..] = tail else {
            return Err(Fault {
                refusal: Refusal::NothingEscaped, // in an open quote too
                place: text.len() - rest.len(),
            });
        };
        out[len] = *byte;
        len += 1;
        rest = behind;
    }
    Ok(Ended {
        next: text.len() - rest.len(),
        len,
        word: false,
    })
}

// Most terms are words, whose letters stand for themselves: only what follows the first letters can hold a backslash.
pub fn read_term(text: &[u8], at: usize, room: &mut [u8]) -> Result<Ended, Fault>
    requires { (at ≤ length text.now) × (length text.now ≤ text_most) × (is_text text.now ≡ true) × (room_least ≤ length room.old) }
    ensures kept { Kept at room.old room.new }
    ensures reads { Reads result (term_text (length text.now) (drop at text.now)) text.now at room.new }
{
    let len = read_letters(&text[at..], &mut room[at..text.len()]);
    let next = at + len;
    if next == text.len() || ends_term(text[next]) {
        return Ok(Ended {
            next,
            len,
            word: true,
        });
    }
    let more = unescape(text, next, &mut room[next..text.len()], |c| ends_term(c))?;
    Ok(Ended {
        len: len + more.len,
        ..more
    })
}

// The opening quote stands at `at`.
pub fn read_quoted(text: &[u8], at: usize, room: &mut [u8]) -> Result<Ended, Fault>
    requires { (at < length text.now) × (length text.now ≤ text_most) × (room_least ≤ length room.old) }
    ensures kept { Kept at room.old room.new }
    ensures reads { Reads result (quoted_text (length text.now) at (drop (at + 1) text.now)) text.now at room.new }
{
    let quote = unescape(text, at + 1, &mut room[at..text.len()], |c| c == b'"')?;
    if quote.next == text.len() {
        return Err(Fault {
            refusal: Refusal::OpenQuote,
            place: at,
        });
    }
    Ok(Ended {
        next: quote.next + 1,
        ..quote
    })
}
