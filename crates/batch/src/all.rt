// The call: the cut, what is found of each query, the records asked, and the queries' turns one after the other.
ghost use Rattle.std.specs.Prelude.{◌≡◌, ℕ, ◌+◌, ◌*◌, ◌≤◌, ◌<◌, length};
ghost use Rattle.rules.specs.Numbers.{list_most, queries_most, select_all_room};
ghost use Rattle.names.specs.Refusals.{numbered};
ghost use Rattle.rules.specs.Lists.{read_list};
ghost use Rattle.rules.specs.Batch.{told_of, select_all_left};
ghost use Rattle.numbers.specs.Laid.{Put};
ghost use Rattle.selection.specs.Select.{told};
ghost use Rattle.batch.specs.Cut.{Cuts};
ghost use Rattle.batch.specs.Turn.{records_in};
ghost use Rattle.batch.specs.All.{all_left, Prepared, Turned, Few, Answered};

use super::ask::keep;
use super::cut::{cut_all, first, others};
use super::plan::{MASKS, plan};
use super::turn::turn;
use lists::check_list;
use matching::level::NO_LEVEL;
use names::refusal::Refusal;
use names::{QUERIES_MOST, SELECT_ALL_ROOM, SELECTION_DEPTH};
use numbers::put_big4;
use selection::select::records;
use stretches::clear;

// Stays: the clause `answer` of `select_all`, which docs/ANSWERS.md names, speaks of these three numbers.
// A refusal's number or 0, the bytes of all rows, the queries.
#[derive(Drop)]
pub struct Answer {
    pub refusal: u8,
    pub written: usize,
    pub count: usize,
}

fn refuse(r: Refusal) -> Answer
    ensures { (result.refusal ≡ numbered r) × (result.written ≡ 0) × (result.count ≡ 0) }
{
    Answer {
        refusal: u8::from(r),
        written: 0,
        count: 0,
    }
}

// How many records the list has, or what is wrong with it.
fn records_of(list: &[u8]) -> Result<usize, Refusal>
    ensures { result ≡ records_in (read_list list.now) }
{
    check_list(list)?;
    Ok(records(list))
}

// The faults of the queries, and the table where the list is sound.
fn prepare(
    queries: &[u8],
    many: usize,
    faults: &mut [Result<(), Refusal>; QUERIES_MOST],
    list: &[u8],
    records: Result<usize, Refusal>,
    table: &mut [u8],
)
    requires { Cuts queries.now many × (records ≡ records_in (read_list list.now)) × (select_all_room ≤ length table.old) }
    ensures { Prepared queries.now many faults.new list.now records table.new }
{
    // Stays: fixed memory and no heap, here and below: each array is as long as the limits allow, and made once for all records.
    let mut row = [NO_LEVEL; SELECTION_DEPTH];
    let mut masks = [0u64; MASKS];
    plan(queries, many, faults, &mut masks, &mut row);
    if let Ok(n) = records {
        keep(queries, many, faults, &masks, list, n, table);
    }
}

// What is told of a query: its refusal and its count.
fn tell(answers: &mut [u8], at: usize, s: Result<usize, Refusal>) -> usize
    requires { (at + 8 ≤ length answers.old) × ((told s).count ≤ list_most) }
    ensures { Put answers.old at (told_of (told s)) result answers.new }
{
    match s {
        Err(r) => {
            let w = put_big4(answers, at, u32::from(u8::from(r)));
            put_big4(answers, w, 0)
        }
        Ok(n) => {
            let w = put_big4(answers, at, 0);
            put_big4(answers, w, n as u32)
        }
    }
}

// The queries' turns, each over the rows that those before it left.
fn turn_all(
    queries: &[u8],
    many: usize,
    faults: &[Result<(), Refusal>; QUERIES_MOST],
    list: &[u8],
    records: Result<usize, Refusal>,
    table: &[u8],
    answers: &mut [u8],
    rows: &mut [u8],
) -> usize
    requires { Cuts queries.now many × Prepared queries.now many faults.now list.now records table.now × (records ≡ records_in (read_list list.now))
        × (8 * many ≤ length answers.old) × (select_all_room ≤ length table.now) }
    ensures { Turned queries.now many list.now answers.old rows.old result answers.new rows.new }
{
    let mut row = [NO_LEVEL; SELECTION_DEPTH];
    let mut w: usize = 0;
    let mut a: usize = 0;
    let mut t = queries;
    for i in 0..many {
        let j = many - 1 - i;
        let s = turn(
            first(t),
            faults[i],
            j,
            list,
            records,
            table,
            &mut rows[w..],
            &mut row,
        );
        a = tell(answers, a, s);
        w += 4 * s.unwrap_or(0);
        t = others(t);
    }
    w
}

// Of queries that were cut.
fn answer_all(
    queries: &[u8],
    many: usize,
    list: &[u8],
    answers: &mut [u8],
    rows: &mut [u8],
    room: &mut [u8],
) -> Answer
    requires { Cuts queries.now many × (select_all_room ≤ length room.old) }
    ensures { Answered queries.now list.now answers.old rows.old room.old
        result.refusal result.written result.count answers.new rows.new room.new }
{
    if answers.len() / 8 < many {
        clear(room);
        return refuse(Refusal::LongAnswer);
    }
    let mut faults = [Ok(()); QUERIES_MOST];
    let records = records_of(list);
    prepare(queries, many, &mut faults, list, records, room);
    let w = turn_all(queries, many, &faults, list, records, room, answers, rows);
    clear(room);
    Answer {
        refusal: 0,
        written: w,
        count: many,
    }
}

pub fn select_all(
    queries: &[u8],
    list: &[u8],
    answers: &mut [u8],
    rows: &mut [u8],
    room: &mut [u8],
) -> Answer
    ensures answer { all_left result.refusal result.written result.count answers.new rows.new room.new
        ≡ select_all_left queries.now list.now answers.old rows.old room.old }
    ensures few { Few result.written result.count }
{
    if room.len() < SELECT_ALL_ROOM {
        clear(room);
        return refuse(Refusal::ShortRoom);
    }
    match cut_all(queries) {
        Err(r) => {
            clear(room);
            refuse(r)
        }
        Ok(many) => answer_all(queries, many, list, answers, rows, room),
    }
}
