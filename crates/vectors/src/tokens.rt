// A line of the list of tokens: an analyzer, a text, and for each token its position, its start and its text.
ghost use Rattle.std.specs.Prelude.{◌≤◌, ◌<◌, length};

use crate::line;
use analysis::tokens;

// The token as the analyzer writes it, as far as there is room.
fn write_token(token: &[u8], analyzer: u8, out: &mut [u8]) -> usize
    ensures { result ≤ length out.new }
{
    for (byte, c) in out.iter_mut().zip(token) {
        *byte = tokens::written(analyzer, *c);
    }
    out.len().min(token.len())
}

// The token reads as the digits say.
fn is_token(token: &[u8], analyzer: u8, hex: &[u8]) -> bool {
    let mut room = [0u8; names::TEXT_MOST];
    let n = write_token(token, analyzer, &mut room);
    line::is_hex(&room[0..n], hex)
}

// What a row says of a token: its position, its start, the digits of its text, and where the next token's columns begin.
#[derive(Drop)]
struct Columns {
    position: usize,
    start: usize,
    hex: usize,
    end: usize,
    next: usize,
}

fn token_columns(row: &[u8], at: usize) -> Columns
    requires { at < length row.now }
    ensures { (result.hex ≤ result.end) × (result.end ≤ length row.now) × (at < result.next) × (result.next ≤ length row.now) }
{
    let p = line::part_end(row, at, b' ');
    let s = line::behind(row, p);
    let q = line::part_end(row, s, b' ');
    let hex = line::behind(row, q);
    let end = line::part_end(row, hex, b' ');
    let position = line::decimal(&row[at..p]);
    let start = line::decimal(&row[s..q]);
    let next = line::behind(row, end);
    Columns {
        position,
        start,
        hex,
        end,
        next,
    }
}

// The tokens are those of the row, and none is left behind them.
fn are_tokens(text: &[u8], analyzer: u8, row: &[u8]) -> bool {
    // Stays: each place goes on by what was read.
    let mut from: usize = 0;
    let mut position: usize = 0;
    let mut at: usize = 0;
    while at < row.len() {
        let c = token_columns(row, at);
        let t = tokens::next_token(text, analyzer, from, position);
        if t.len == 0 {
            return false;
        }
        if t.position != c.position {
            return false;
        }
        if t.start != c.start {
            return false;
        }
        let start = t.start;
        let end = start + t.len;
        let hex = c.hex;
        let hex_end = c.end;
        if !is_token(&text[start..end], analyzer, &row[hex..hex_end]) {
            return false;
        }
        from = end;
        position = t.position + 1;
        at = c.next;
    }
    tokens::next_token(text, analyzer, from, position).len == 0
}

pub fn agrees(line: &[u8]) -> bool {
    if line.len() == 0 {
        return false;
    }
    let analyzer = line::digit(line[0]);
    let a = line::part_end(line, 0, b' ');
    let t = line::behind(line, a);
    let e = line::part_end(line, t, b' ');
    let row = line::behind(line, e);
    let mut room = [0u8; names::TEXT_MOST];
    let n = line::decode(&line[t..e], &mut room);
    are_tokens(&room[0..n], analyzer, &line[row..])
}
