// What is found once of each query: its fault, and by a bit in each mask which entries it can want, whether it can want a number, and what it says of a
// record in which it wants nothing.
ghost use Rattle.std.specs.Prelude.{◌≡◌, ℕ, ◌≤◌, ◌<◌, ◌^◌, length, get_or};
ghost use Rattle.rules.specs.Numbers.{queries_most, selection_depth};
ghost use Rattle.names.specs.Refusals.{checked};
ghost use Rattle.rules.specs.Reading.{read_for_selection};
ghost use Rattle.entries.specs.Slots.{slots_many};
ghost use Rattle.batch.specs.Cut.{queries_of, Cuts};
ghost use Rattle.batch.specs.Plan.{Saying, masks_many, PushedWords, Pushed, Planning, Planned};

use super::bits::pushed;
use super::cut::{first, others};
use entries::slots::SLOTS;
use matching::level::Level;
use matching::truth::holds;
use names::refusal::Refusal;
use names::{QUERIES_MOST, SELECTION_DEPTH};
use stored::read::for_selection;
use wanted::mark_query;

// Behind a mask for each slot stand that of the numbers and that of the records without a wanted entry.
pub const NUMBERS: usize = 512;

pub const BARE: usize = 513;

pub const MASKS: usize = 514;

// Stays: two Booleans that do not depend on each other; an enum would have four cases.
// Whether it can want a number, and what it says of a record in which it wants nothing.
#[derive(Drop)]
pub struct Said {
    pub ranges: bool,
    pub bare: bool,
}

fn say(
    q: &[u8],
    fault: Result<(), Refusal>,
    wanted: &mut [u8; SLOTS],
    row: &mut [Level; SELECTION_DEPTH],
) -> Said
    requires { fault ≡ checked (read_for_selection q.now) }
    ensures { Saying q.now fault wanted.new result }
{
    match fault {
        Err(_) => Said {
            ranges: false,
            bare: false,
        },
        Ok(()) => {
            let bare = holds(q, &[], 0, &[], row);
            let ranges = mark_query(q, wanted);
            Said { ranges, bare }
        }
    }
}

fn push_words(masks: &mut [u64; MASKS], wanted: &[u8; SLOTS])
    requires { (i : ℕ) → get_or masks.old i 0 < 2 ^ 63 }
    ensures { PushedWords masks.old wanted.now masks.new }
{
    for i in 0..SLOTS {
        masks[i] = pushed(masks[i], wanted[i] != 0);
    }
}

fn push(masks: &mut [u64; MASKS], wanted: &[u8; SLOTS], said: Said)
    requires { (i : ℕ) → get_or masks.old i 0 < 2 ^ 63 }
    ensures { Pushed masks.old wanted.now said masks.new }
{
    push_words(masks, wanted);
    masks[NUMBERS] = pushed(masks[NUMBERS], said.ranges);
    masks[BARE] = pushed(masks[BARE], said.bare);
}

fn plan_query(
    q: &[u8],
    fault: Result<(), Refusal>,
    masks: &mut [u64; MASKS],
    row: &mut [Level; SELECTION_DEPTH],
)
    requires { (fault ≡ checked (read_for_selection q.now)) × ((i : ℕ) → get_or masks.old i 0 < 2 ^ 63) }
    ensures { Planning q.now fault masks.old masks.new }
{
    // Stays: fixed memory and no heap; a mark is found by its hash, and no number says how many count.
    let mut wanted = [0u8; SLOTS];
    let said = say(q, fault, &mut wanted, row);
    push(masks, &wanted, said);
}

// The masks hold zeros before the first query.
pub fn plan(
    queries: &[u8],
    many: usize,
    faults: &mut [Result<(), Refusal>; QUERIES_MOST],
    masks: &mut [u64; MASKS],
    row: &mut [Level; SELECTION_DEPTH],
)
    requires { Cuts queries.now many
        × ((i : ℕ) → get_or masks.old i 0 ≡ 0) }
    ensures { Planned (queries_of queries.now) many faults.new masks.new }
{
    let mut t = queries;
    for i in 0..many {
        let q = first(t);
        let fault = for_selection(q);
        faults[i] = fault;
        plan_query(q, fault, masks, row);
        t = others(t);
    }
}
