// The calls of `selection` for programs in other languages: for tests alone, which link this crate's archive.
#![tactic(auto)]

ghost use Rattle.std.specs.Prelude.{◌≡◌};
ghost use Rattle.rules.specs.Answers.{select_left};
ghost use Rattle.probe_selection.specs.Probe.{packed, SelectsRows};

use selection::select::{select, select_bytes};

// What one counts in the upper half.
const UPPER: u64 = 0x1_0000_0000;

// The refusal's number in the upper half, and the count in the lower.
// Stays: the C interface has the refusal and the count in one number.
#[unsafe(no_mangle)]
pub extern "C" fn probe_select_bytes(
    query: &[u8],
    list: &[u8],
    rows: &mut [u8],
    room: &mut [u8],
) -> u64
    ensures answer { result ≡ packed (select_left query.now list.now rows.old room.old).answer }
    ensures output { rows.new ≡ (select_left query.now list.now rows.old room.old).output }
    ensures room { room.new ≡ (select_left query.now list.now rows.old room.old).room }
{
    match select_bytes(query, list, rows, room) {
        Err(r) => u64::from(u8::from(r)) * UPPER,
        Ok(n) => n as u64,
    }
}

#[unsafe(no_mangle)]
pub extern "C" fn probe_select_rows(query: &[u8], list: &[u8], rows: &mut [u32]) -> u64
    ensures { SelectsRows query.now list.now rows.old rows.new result }
{
    match select(query, list, rows) {
        Err(r) => u64::from(u8::from(r)) * UPPER,
        Ok(n) => n as u64,
    }
}
