// One record asked of all queries at once, and the table of the answers for the first records of a list.
ghost use Rattle.std.specs.Prelude.{◌≡◌, ℕ, ◌≤◌, ◌<◌, Bool, true, false, length};
ghost use Rattle.rules.specs.Bytes.{every, each, some};
ghost use Rattle.rules.specs.Lists.{is_entry, entry_of};
ghost use Rattle.rules.specs.Numbers.{select_all_room, selection_depth};
ghost use Rattle.names.specs.Refusals.{checked};
ghost use Rattle.rules.specs.Reading.{read_for_selection};
ghost use Rattle.entries.specs.Slots.{hash_of, Told};
ghost use Rattle.wanted.specs.Wanted.{calls_by};
ghost use Rattle.matching.specs.Truth.{Truth};
ghost use Rattle.batch.specs.Bits.{bit_at};
ghost use Rattle.batch.specs.Cut.{queries_of};
ghost use Rattle.batch.specs.Plan.{masks_many, wanted_by, numbers_by};
ghost use Rattle.batch.specs.Ask.{Queries, Ready, Asked, kept, Table, Records};

use super::bits::{bit_at, pushed};
use super::cut::{first, others};
use super::plan::{BARE, NUMBERS};
use entries::entry::{field, is_place, text};
use entries::slots::{SLOTS, hash, note};
use matching::level::{Level, NO_LEVEL};
use matching::truth::holds;
use names::refusal::Refusal;
use names::{HEADER, QUERIES_MOST, SELECTION_DEPTH};
use numbers::put_big8;
use parts::part::{body, rest};

// ---- which queries want something of a record

// The queries that can want the entry, a bit for each.
fn wanting(masks: &[u64], e: &[u8]) -> u64
    requires { (length masks.now ≡ masks_many) × (is_entry e.now ≡ true) }
    ensures { (j : ℕ) → bit_at result j ≡ calls_by hash_of (wanted_by masks.now j) (λ f. numbers_by masks.now j) (entry_of e.now) }
{
    if !is_place(e) {
        return masks[NUMBERS];
    }
    let i = hash(field(e), text(e)) % SLOTS;
    masks[i]
}

fn called(masks: &[u64], rec: &[u8]) -> u64
    requires { (length masks.now ≡ masks_many) × (every is_entry rec.now ≡ true) }
    ensures { (j : ℕ) → bit_at result j ≡ some (calls_by hash_of (wanted_by masks.now j) (λ f. numbers_by masks.now j)) (each entry_of rec.now) }
{
    let mut any: u64 = 0;
    let mut e = rec;
    while e.len() > 0 {
        any |= wanting(masks, e);
        e = rest(e);
    }
    any
}

// ---- one record

// Stays: `wants` saves the asking, and `bare` is the answer then; a closure for the asking would capture all the rest.

// Of a sound query: true or not, as it says of a record in which it wants nothing, or by asking it.
fn truth(
    q: &[u8],
    fault: Result<(), Refusal>,
    wants: bool,
    bare: bool,
    rec: &[u8],
    from: usize,
    slots: &[u16],
    row: &mut [Level],
) -> bool
    requires { (fault ≡ checked (read_for_selection q.now)) × (fault ≡ Ok tt → wants ≡ false → Truth q.now (each entry_of rec.now) bare)
        × (every is_entry rec.now ≡ true) × Told slots.now from rec.now × (selection_depth ≤ length row.old) }
    ensures { fault ≡ Ok tt → Truth q.now (each entry_of rec.now) result }
{
    match fault {
        Err(_) => false,
        Ok(()) if !wants => bare,
        Ok(()) => holds(q, rec, from, slots, row),
    }
}

fn ask(
    queries: &[u8],
    many: usize,
    faults: &[Result<(), Refusal>; QUERIES_MOST],
    masks: &[u64],
    rec: &[u8],
    from: usize,
    slots: &mut [u16],
    row: &mut [Level],
) -> u64
    requires { Queries queries.now many faults.now masks.now × Ready rec.now from slots.old row.old }
    ensures { Asked queries.now many rec.now from slots.new result }
{
    let any = called(masks, rec);
    note(rec, from, slots);
    let bare = masks[BARE];
    let mut bits: u64 = 0;
    let mut t = queries;
    for i in 0..many {
        let j = many - 1 - i;
        let y = truth(
            first(t),
            faults[i],
            bit_at(any, j),
            bit_at(bare, j),
            rec,
            from,
            slots,
            row,
        );
        bits = pushed(bits, y);
        t = others(t);
    }
    bits
}

// ---- the first records of a list

pub const KEPT: usize = 2048;

// The bytes of a record's bits.
pub const BITS_BYTES: usize = 8;

pub fn keep(
    queries: &[u8],
    many: usize,
    faults: &[Result<(), Refusal>; QUERIES_MOST],
    masks: &[u64],
    list: &[u8],
    records: usize,
    table: &mut [u8],
)
    requires { Queries queries.now many faults.now masks.now × Records list.now records × (select_all_room ≤ length table.old) }
    ensures { Table (queries_of queries.now) many list.now kept table.new }
{
    // Stays: fixed memory; a slot is found by its hash, and no number says how many count.
    let mut slots = [0u16; SLOTS];
    let mut row = [NO_LEVEL; SELECTION_DEPTH];
    let mut t = list;
    for i in 0..records.min(KEPT) {
        let from = list.len() - t.len() + HEADER;
        let bits = ask(
            queries,
            many,
            faults,
            masks,
            body(t),
            from,
            &mut slots,
            &mut row,
        );
        put_big8(table, BITS_BYTES * i, bits);
        t = rest(t);
    }
}
