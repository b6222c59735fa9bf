// The public call: a text under a setup becomes the stored form of its query, or a refusal leaves the output as it was.
// The first half measures, so that what does not fit is refused before a byte is written. The room ends all zeros in every case.
ghost use Rattle.std.specs.Prelude.{◌≡◌, ℕ, ◌≤◌, ◌<◌, length};
ghost use Rattle.rules.specs.Numbers.{text_most, field_most, got, and_then, placed};
ghost use Rattle.rules.specs.Query.{Clauses};
ghost use Rattle.rules.specs.Setup.{Setup, read_setup};
ghost use Rattle.rules.specs.Parsing.{start_of, query_of, or_match_none, parse, parse_tokens};
ghost use Rattle.row.specs.Row.{room_least, tokens_of};
ghost use Rattle.clauses.specs.Measured.{Rowed, Fielded, Tuned};
ghost use Rattle.parser.specs.Parsed.{Delivers, Parses};
ghost use Rattle.clauses.specs.Written.{QueryToWrite};

use crate::setup;
use clauses::measure::measure_query;
use clauses::scope::{Row, Scope};
use clauses::write::write_query;
use fields::analyzer_of;
use names::refusal::{Fault, Refusal};
use names::{END_KIND, ENTRIES_MOST, FIELD_MOST, HEADER, MATCH_NONE_TAG, PARSE_ROOM, TEXT_MOST};
use parts::write::put_header;
use row::{kind_at, place_at};
use stretches::{clear, is_text};

// What is refused at no place of the text: values of `Fault`, no numbers.
// Stays: C has place 0 there (include/gorbihesh.h), and the clause of `parse` says so.
const BAD_SETUP: Fault = Fault {
    refusal: Refusal::BadSetup,
    place: 0,
};

const LONG_TEXT: Fault = Fault {
    refusal: Refusal::LongText,
    place: 0,
};

const NOT_ASCII: Fault = Fault {
    refusal: Refusal::NotAscii,
    place: 0,
};

const LONG_ANSWER: Fault = Fault {
    refusal: Refusal::LongAnswer,
    place: 0,
};

const SHORT_ROOM: Fault = Fault {
    refusal: Refusal::ShortRoom,
    place: 0,
};

// The query of kept clauses, which has `len` bytes, goes to the output, if it fits; where none is kept, `len` is 0.
fn write_whole(row: &Row, p: Scope, alone: bool, len: usize, out: &mut [u8]) -> Result<usize, Fault>
    requires { (Fielded row.now.room.now row.now.n row.now.default.now p.from) × (len ≤ 65000) × ((st : Setup) × (cs : Clauses) × (j : ℕ) × QueryToWrite row.now.room.now row.now.n row.now.default.now p.operator p.from p.analyzer p.depth 0 alone len st cs j) × (p.depth ≤ 24) }
    ensures { (st : Setup) (cs : Clauses) (j : ℕ) → QueryToWrite row.now.room.now row.now.n row.now.default.now p.operator p.from p.analyzer p.depth 0 alone len st cs j → Delivers (got (or_match_none (query_of cs))) out.old result out.new }
{
    if len == 0 {
        if out.len() < HEADER {
            return Err(LONG_ANSWER);
        }
        put_header(out, 0, MATCH_NONE_TAG, 0);
        return Ok(HEADER);
    }
    if out.len() < len {
        return Err(LONG_ANSWER);
    }
    write_query(row, p, 0, alone, &mut out[0..len]);
    Ok(len)
}

// The tokens in the room, to their end, in the default field. The text ends at `end`: what is refused there has that place, and any other token
// its start, which is looked up only then.
fn parse_tokens(
    operator: u8,
    analyzer: u8,
    row: &Row,
    end: usize,
    out: &mut [u8],
) -> Result<usize, Fault>
    requires { (end ≤ text_most) × (length row.now.default.now ≤ field_most) × ((st : Setup) × Tuned st operator row.now.room.now row.now.n row.now.default.now 0 analyzer × (st.field ≡ row.now.default.now)) }
    ensures { (st : Setup) → Tuned st operator row.now.room.now row.now.n row.now.default.now 0 analyzer → st.field ≡ row.now.default.now → Delivers (placed (start_of end (tokens_of row.now.room.now row.now.n)) (parse_tokens st (tokens_of row.now.room.now row.now.n))) out.old result out.new }
{
    let p = Scope {
        from: 0,
        depth: 0,
        operator,
        analyzer,
    };
    match measure_query(row, p, 0) {
        Err(e) => Err(Fault {
            place: place_at(row.room, row.n, e.place, end),
            ..e
        }),
        Ok(g) if kind_at(row.room, row.n, g.next) != END_KIND => Err(Fault {
            refusal: Refusal::UnexpectedToken,
            place: place_at(row.room, row.n, g.next, end),
        }),
        Ok(g) => write_whole(row, p, g.sum.is_alone(), g.sum.query_len(), out),
    }
}

// The same from a text, with a room that is long enough.
fn parse_text(
    operator: u8,
    analyzer: u8,
    field: &[u8],
    fields: &[u8],
    text: &[u8],
    out: &mut [u8],
    room: &mut [u8],
) -> Result<usize, Fault>
    requires { room_least ≤ length room.old }
    ensures { Delivers (and_then (read_setup operator analyzer field.now fields.now) (λ st. parse st text.now)) out.old result out.new }
{
    let mut names = [[0u8; FIELD_MOST]; ENTRIES_MOST];
    let mut lengths = [0u8; ENTRIES_MOST];
    let mut analyzers = [0u8; ENTRIES_MOST];
    let Some(count) = setup::read_entries(fields, &mut names, &mut lengths, &mut analyzers) else {
        return Err(BAD_SETUP);
    };
    if !setup::is_plain(operator, analyzer, field) {
        return Err(BAD_SETUP);
    }
    if TEXT_MOST < text.len() {
        return Err(LONG_TEXT);
    }
    if !is_text(text) {
        return Err(NOT_ASCII);
    }
    let n = lexer::lex(text, room)?;
    setup::note_fields(room, n, &names, &lengths, &analyzers, count, analyzer);
    let a = analyzer_of(&names, &lengths, &analyzers, count, analyzer, field);
    let row = Row {
        room,
        n,
        default: field,
    };
    parse_tokens(operator, a, &row, text.len(), out)
}

// Parses a text under a setup: operator (0 Or, 1 And), default analyzer (1 to 3), default field, and the entries of further fields.
// It answers how many bytes it wrote, or a refusal and where in the text that is, 0 where it is none of the text's.
// The answer, the output and the room afterwards are those of the definition, whatever is lent.
pub fn parse(
    operator: u8,
    analyzer: u8,
    field: &[u8],
    fields: &[u8],
    text: &[u8],
    out: &mut [u8],
    room: &mut [u8],
) -> Result<usize, Fault>
    ensures { Parses operator analyzer field.now fields.now text.now out.old room.old out.new room.new result }
{
    if room.len() < PARSE_ROOM {
        clear(room);
        return Err(SHORT_ROOM);
    }
    let p = parse_text(operator, analyzer, field, fields, text, out, room);
    clear(room);
    p
}
