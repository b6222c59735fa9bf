// The two lines of an input: operator and default field, and the text. They are parsed here.
ghost use Rattle.std.specs.Prelude.{◌≡◌, ◌≤◌, length, drop};
ghost use Rattle.rules.specs.Numbers.{on_read, parse_room, text_most};
ghost use Rattle.rules.specs.Analysis.{front, after};
ghost use Rattle.rules.specs.Answers.{call_at, stored_reply};
ghost use Rattle.parser.specs.Parsed.{answer_of, left_of};
ghost use Rattle.show.specs.Lines.{other, operator_number, line_operator, written_in};

use names::refusal::Fault;
use names::{AND_OPERATOR, OR_OPERATOR, SIMPLE_ANALYZER};
use parser::parse::parse;
use stretches::same;

// Where the first byte b is, or the end.
fn find(s: &[u8], b: u8) -> usize
    ensures { result ≡ length (front (other b) s.now) }
{
    for (i, c) in s.iter().enumerate() {
        if *c == b {
            return i;
        }
    }
    s.len()
}

fn before(s: &[u8], b: u8) -> &[u8]
    ensures { result.now ≡ front (other b) s.now }
{
    let e = find(s, b);
    &s[0..e]
}

fn behind(s: &[u8], b: u8) -> &[u8]
    ensures { result.now ≡ drop 1 (after (other b) s.now) }
{
    let e = find(s, b);
    if e < s.len() {
        let a = e + 1;
        return &s[a..];
    }
    &s[e..]
}

// What stands for an operator that is none: no setup has it.
// Stays: `parse` takes any byte, as C hands it over, and refuses this one with BadSetup; of an Option, None would be turned into it.
const NO_OPERATOR: u8 = 2;

// The operator's number; NO_OPERATOR for any other word.
fn operator(word: &[u8]) -> u8
    ensures { result ≡ operator_number word.now }
{
    if same(word, b"or") {
        return OR_OPERATOR;
    }
    if same(word, b"and") {
        return AND_OPERATOR;
    }
    NO_OPERATOR
}

// The same for a line, in which a space has to follow the word.
fn line_operator(line: &[u8]) -> u8
    ensures { result ≡ line_operator line.now }
{
    let word = before(line, b' ');
    if word.len() < line.len() {
        return operator(word);
    }
    NO_OPERATOR
}

pub fn parse_lines(input: &[u8], out: &mut [u8], room: &mut [u8]) -> Result<usize, Fault>
    ensures is { left_of result out.new room.new ≡ call_at parse_room (on_read stored_reply (written_in input.now)) out.old room.old }
    ensures near { (answer_of result).place ≤ text_most }
{
    let line = before(input, b'\n');
    let text = before(behind(input, b'\n'), b'\n');
    parse(
        line_operator(line),
        SIMPLE_ANALYZER,
        behind(line, b' '),
        &line[0..0],
        text,
        out,
        room,
    )
}
