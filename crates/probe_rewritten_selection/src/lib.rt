// `rewrite_and_select` for programs in other languages: for tests alone, which link this crate's archive.
#![tactic(auto)]

ghost use Rattle.std.specs.Prelude.{◌≡◌};
ghost use Rattle.rewritten_selection.specs.Choice.{left, choice_left};

use rewritten_selection::rewrite_and_select;

// The refusal's number or 0, the records chosen, the rounds made.
// Stays: the C interface has the refusal as a number.
#[repr(C)]
#[derive(Drop)]
pub struct Answer {
    pub refusal: u64,
    pub count: u64,
    pub rounds: u64,
}

#[unsafe(no_mangle)]
pub extern "C" fn probe_rewrite_and_select(
    strict: bool,
    query: &[u8],
    list: &[u8],
    rows: &mut [u32],
    held: &mut [u8],
    room: &mut [u8],
) -> Answer
    ensures { left result.refusal result.count result.rounds rows.new held.new room.new ≡ choice_left strict query.now list.now rows.old held.old room.old }
{
    match rewrite_and_select(strict, query, list, rows, held, room) {
        Err(e) => Answer {
            refusal: u64::from(u8::from(e)),
            count: 0,
            rounds: 0,
        },
        Ok(c) => Answer {
            refusal: 0,
            count: c.count as u64,
            rounds: c.rounds as u64,
        },
    }
}
