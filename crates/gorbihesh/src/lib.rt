// The calls that programs in C make: numbers and byte slices in, one struct of five numbers out. include/gorbihesh.h says what each takes,
// promises and refuses. Each is thin over the crate that does the work, asks for nothing, and leaves what its definition says.
#![tactic(auto)]

ghost use Rattle.std.specs.Prelude.{◌≡◌};
ghost use Rattle.rules.specs.Numbers.{parse_room, rewrite_room, select_room};
ghost use Rattle.rules.specs.Rewriting.{original, strictly};
ghost use Rattle.rules.specs.Answers.{parse_left, rewrite_left, select_left};
ghost use Rattle.gorbihesh.specs.Edge.{left, Told, version};

use names::{PARSE_ROOM, REWRITE_ROOM, SELECT_ROOM};
use parser::parse::parse;
use rewriter::rounds::{ORIGINAL, STRICT, rewrite};
use selection::select::select_bytes;

// The refusal's number or 0, the bytes written, the records chosen, the rounds made, the place of a text's fault or 0.
// Stays: the C interface has the refusal as a number (include/gorbihesh.h), and a rewriting and a strict one as two calls.
#[repr(C)]
#[derive(Drop)]
pub struct Answer {
    pub refusal: u32,
    pub length: u32,
    pub count: u32,
    pub rounds: u32,
    pub place: u32,
}

// A row is a record's number.
const ROW_BYTES: u32 = 4;

fn told(refusal: u32, length: u32, count: u32, rounds: u32, place: u32) -> Answer
    ensures { Told refusal length count rounds place result.refusal result.length result.count result.rounds result.place }
{
    Answer {
        refusal,
        length,
        count,
        rounds,
        place,
    }
}

#[unsafe(no_mangle)]
pub extern "C" fn gorbihesh_parse(
    operator: u8,
    analyzer: u8,
    field: &[u8],
    fields: &[u8],
    text: &[u8],
    out: &mut [u8],
    room: &mut [u8],
) -> Answer
    ensures { left result.refusal result.length result.count result.rounds result.place out.new room.new ≡ parse_left operator analyzer field.now fields.now text.now out.old room.old }
{
    match parse(operator, analyzer, field, fields, text, out, room) {
        Err(e) => told(u32::from(u8::from(e.refusal)), 0, 0, 0, e.place as u32),
        Ok(len) => told(0, len as u32, 0, 0, 0),
    }
}

// Rewriting in either way.
fn rewrite_by(strict: bool, query: &[u8], out: &mut [u8], room: &mut [u8]) -> Answer
    ensures { left result.refusal result.length result.count result.rounds result.place out.new room.new ≡ rewrite_left strict query.now out.old room.old }
{
    match rewrite(strict, query, out, room) {
        Err(e) => told(u32::from(u8::from(e)), 0, 0, 0, 0),
        Ok(a) => told(0, a.len as u32, 0, a.rounds as u32, 0),
    }
}

#[unsafe(no_mangle)]
pub extern "C" fn gorbihesh_rewrite(query: &[u8], out: &mut [u8], room: &mut [u8]) -> Answer
    ensures { left result.refusal result.length result.count result.rounds result.place out.new room.new ≡ rewrite_left original query.now out.old room.old }
{
    rewrite_by(ORIGINAL, query, out, room)
}

#[unsafe(no_mangle)]
pub extern "C" fn gorbihesh_rewrite_strict(query: &[u8], out: &mut [u8], room: &mut [u8]) -> Answer
    ensures { left result.refusal result.length result.count result.rounds result.place out.new room.new ≡ rewrite_left strictly query.now out.old room.old }
{
    rewrite_by(STRICT, query, out, room)
}

#[unsafe(no_mangle)]
pub extern "C" fn gorbihesh_select(
    query: &[u8],
    list: &[u8],
    rows: &mut [u8],
    room: &mut [u8],
) -> Answer
    ensures { left result.refusal result.length result.count result.rounds result.place rows.new room.new ≡ select_left query.now list.now rows.old room.old }
{
    match select_bytes(query, list, rows, room) {
        Err(r) => told(u32::from(u8::from(r)), 0, 0, 0, 0),
        Ok(count) => told(0, ROW_BYTES * count as u32, count as u32, 0, 0),
    }
}

// ---- the version

#[unsafe(no_mangle)]
pub extern "C" fn gorbihesh_version() -> u32
    ensures { result ≡ version }
{
    2000000
}

// ---- the rooms

#[unsafe(no_mangle)]
pub extern "C" fn gorbihesh_parse_room() -> usize
    ensures { result ≡ parse_room }
{
    PARSE_ROOM
}

#[unsafe(no_mangle)]
pub extern "C" fn gorbihesh_rewrite_room() -> usize
    ensures { result ≡ rewrite_room }
{
    REWRITE_ROOM
}

#[unsafe(no_mangle)]
pub extern "C" fn gorbihesh_rewrite_strict_room() -> usize
    ensures { result ≡ rewrite_room }
{
    REWRITE_ROOM
}

#[unsafe(no_mangle)]
pub extern "C" fn gorbihesh_select_room() -> usize
    ensures { result ≡ select_room }
{
    SELECT_ROOM
}
