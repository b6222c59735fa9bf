// Selection: the numbers, from 0, of the records that a query is true of, into rows that the caller lends. The query and the list are checked
// once. Whether the rows are long enough is known at once where they hold every record; only else is it counted before anything is written.
ghost use Rattle.std.specs.Prelude.{◌≡◌, ◌+◌, ◌≤◌, true, ◌++◌, leb, length, drop};
ghost use Rattle.rules.specs.Bytes.{Bytes, every, each};
ghost use Rattle.names.specs.Refusals.{checked};
ghost use Rattle.rules.specs.Reading.{number_of};
ghost use Rattle.rules.specs.Lists.{is_record, record_of};
ghost use Rattle.rules.specs.Answers.{selected};
ghost use Rattle.numbers.specs.Laid.{Put};
ghost use Rattle.selection.specs.Select.{listed, coded, rows_of, filled, Selects, SelectsBytes};

use super::ask::Question;
use lists::check_list;
use names::HEADER;
use names::refusal::Refusal;
use numbers::put_big4;
use parts::part::{body, rest};
use stored::read::for_selection;
use stretches::clear;

// That both are sound, or what is wrong first.
fn check(query: &[u8], list: &[u8]) -> Result<(), Refusal>
    ensures { result ≡ checked (selected query.now list.now) }
{
    for_selection(query)?;
    check_list(list)
}

// Stays: how many there are is known only at the end, so that there is no range to go over.
pub fn records(list: &[u8]) -> usize
    requires { every is_record list.now ≡ true }
    ensures { result ≡ length (each record_of list.now) }
{
    let mut n: usize = 0;
    let mut t = list;
    while t.len() > 0 {
        n += 1;
        t = rest(t);
    }
    n
}

// The number of a list's first record.
const FIRST: u32 = 0;

// Stays: the flag chooses between two rows, of which one is empty; `Put`, which the theorems name, lays numbers, and a row of bytes takes four for one.
// The number i goes to w, in rows of either kind; the answer is where the next one goes.
fn put(rows: &mut [u32], bytes: &mut [u8], in_bytes: bool, w: usize, i: u32) -> usize
    requires { w + length (coded in_bytes i) ≤ length (filled in_bytes rows.old bytes.old) }
    ensures { Put (filled in_bytes rows.old bytes.old) w (coded in_bytes i) result (filled in_bytes rows.new bytes.new) }
{
    if in_bytes {
        return put_big4(bytes, w, i);
    }
    rows[w] = i;
    w + 1
}

// A query and a list that are sound, and how many records the list has.
#[derive(Clone, Copy)]
struct Checked<'a> {
    query: &'a [u8],
    list: &'a [u8],
    records: usize,
    ghost sound: { number_of (selected query.now list.now) ≡ 0 },
    ghost all: { records ≡ length (each record_of list.now) },
}

impl Checked<'_> {
    // Not inlined: the rows of a question would stand twice on the stack.
    #[inline(never)]
    fn count(&self) -> usize
        requires { Bytes self.now.query.now }
        ensures { result ≡ length (listed (selected self.now.query.now self.now.list.now)) }
    {
        let mut question = Question::new(self.query);
        question.prepare();
        let mut n: usize = 0;
        let mut t = self.list;
        for _i in 0..self.records {
            let from = self.list.len() - t.len() + HEADER;
            n += usize::from(question.is_chosen(body(t), from));
            t = rest(t);
        }
        n
    }

    // Whether n numbers are room enough.
    fn fits(&self, n: usize) -> bool
        requires { Bytes self.now.query.now }
        ensures { result ≡ leb (length (listed (selected self.now.query.now self.now.list.now))) n }
    {
        self.records <= n || self.count() <= n
    }

    // Into rows of either kind: `in_bytes` says which of the two are filled, and the caller lends empty ones for the others. Not inlined, as `count` is not.
    #[inline(never)]
    fn fill(&self, rows: &mut [u32], bytes: &mut [u8], in_bytes: bool) -> usize
        requires { Bytes self.now.query.now
            × (length (rows_of in_bytes (listed (selected self.now.query.now self.now.list.now))) ≤ length (filled in_bytes rows.old bytes.old)) }
        ensures { (result ≡ length (rows_of in_bytes (listed (selected self.now.query.now self.now.list.now))))
            × (filled in_bytes rows.new bytes.new
            ≡ rows_of in_bytes (listed (selected self.now.query.now self.now.list.now)) ++ drop result (filled in_bytes rows.old bytes.old)) }
    {
        let mut question = Question::new(self.query);
        question.prepare();
        let mut w: usize = 0;
        let mut t = self.list;
        for i in 0..self.records {
            let from = self.list.len() - t.len() + HEADER;
            if question.is_chosen(body(t), from) {
                w = put(rows, bytes, in_bytes, w, FIRST + i as u32);
            }
            t = rest(t);
        }
        w
    }
}

// ---- rows of 32-bit numbers

// Stays: `select` and `select_bytes` are two public calls that docs/ANSWERS.md names, each a few lines over `Checked`.

pub fn select(query: &[u8], list: &[u8], rows: &mut [u32]) -> Result<usize, Refusal>
    ensures { Selects query.now list.now rows.old rows.new result }
{
    check(query, list)?;
    let records = records(list);
    let checked = Checked {
        query,
        list,
        records,
    };
    if !checked.fits(rows.len()) {
        return Err(Refusal::LongAnswer);
    }
    Ok(checked.fill(rows, &mut [], false))
}

// ---- rows of bytes: four for each number, big-endian, as everything stored is

// The call of programs in other languages. It needs no room, and clears what it is lent.
pub fn select_bytes(
    query: &[u8],
    list: &[u8],
    rows: &mut [u8],
    room: &mut [u8],
) -> Result<usize, Refusal>
    ensures { SelectsBytes query.now list.now rows.old room.old rows.new room.new result }
{
    clear(room);
    check(query, list)?;
    let records = records(list);
    let checked = Checked {
        query,
        list,
        records,
    };
    if !checked.fits(rows.len() / 4) {
        return Err(Refusal::LongAnswer);
    }
    Ok(checked.fill(&mut [], rows, true) / 4)
}
