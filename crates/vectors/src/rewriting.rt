// A line of the list of rewriting: a stored query, its rounds, and what it becomes.
use crate::line;
use rewriter::rounds;

const QUERY_ROOM: usize = 40000;

// The query becomes what the digits say, in so many rounds.
fn becomes(query: &[u8], made: usize, hex: &[u8]) -> bool {
    let mut out = [0u8; QUERY_ROOM];
    let mut room = [0u8; names::REWRITE_ROOM];
    match rounds::rewrite(rounds::ORIGINAL, query, &mut out, &mut room) {
        Ok(w) => w.rounds == made && w.len <= QUERY_ROOM && line::is_hex(&out[0..w.len], hex),
        Err(_) => false,
    }
}

pub fn agrees(line: &[u8]) -> bool {
    let a = line::part_end(line, 0, b' ');
    let m = line::behind(line, a);
    let b = line::part_end(line, m, b' ');
    let h = line::behind(line, b);
    let mut query = [0u8; QUERY_ROOM];
    let n = line::decode(&line[0..a], &mut query);
    becomes(&query[0..n], line::decimal(&line[m..b]), &line[h..])
}
