// A query's turn: its refusal, or the numbers of its records into the rows that are left.
ghost use Rattle.std.specs.Prelude.{◌≡◌, ℕ, ◌≤◌, ◌<◌, true, [], ◌++◌, leb, length, drop};
ghost use Rattle.rules.specs.Bytes.{every, each};
ghost use Rattle.rules.specs.Lists.{is_entry, entry_of, record_of, read_list};
ghost use Rattle.names.specs.Refusals.{checked};
ghost use Rattle.rules.specs.Numbers.{queries_most, select_all_room, selection_depth};
ghost use Rattle.rules.specs.Reading.{number_of, read_for_selection};
ghost use Rattle.rules.specs.Answers.{selected, row_bytes};
ghost use Rattle.matching.specs.Truth.{Truth, StoredFor};
ghost use Rattle.selection.specs.Select.{listed, SelectsBytes};
ghost use Rattle.batch.specs.Bits.{bit_at};
ghost use Rattle.batch.specs.Ask.{kept, row_at};
ghost use Rattle.batch.specs.Turn.{Asks, Column, Lent, records_in};

use super::ask::{BITS_BYTES, KEPT};
use super::bits::bit_at;
use matching::level::Level;
use matching::truth::holds;
use names::refusal::Refusal;
use numbers::{big8, put_big4};
use parts::part::{body, rest};

// A query over a list, both sound, and the column of its bits in the table.
#[derive(Clone, Copy)]
struct Asking<'a> {
    query: &'a [u8],
    list: &'a [u8],
    records: usize,
    table: &'a [u8],
    j: usize,
    ghost sound: { number_of (selected query.now list.now) ≡ 0 },
    ghost all: { records ≡ length (each record_of list.now) },
    ghost long: { select_all_room ≤ length table.now },
    ghost bits: { j < queries_most },
}

impl Asking<'_> {
    // Whether the query is true of the record i: by the table, or behind its end by asking.
    fn is_chosen(&self, i: usize, rec: &[u8], row: &mut [Level]) -> bool
        requires { StoredFor self.now.query.now × (every is_entry rec.now ≡ true) × (selection_depth ≤ length row.old)
            × (i < kept → Truth self.now.query.now (each entry_of rec.now) (bit_at (row_at self.now.table.now i) self.now.j)) }
        ensures { Truth self.now.query.now (each entry_of rec.now) result }
    {
        if i < KEPT {
            let at = BITS_BYTES * i;
            return bit_at(big8(&self.table[at..]), self.j);
        }
        holds(self.query, rec, 0, &[], row)
    }

    fn count(&self, row: &mut [Level]) -> usize
        requires { Asks self.now.query.now self.now.list.now self.now.table.now self.now.j × (selection_depth ≤ length row.old) }
        ensures { result ≡ length (listed (selected self.now.query.now self.now.list.now)) }
    {
        let mut n: usize = 0;
        let mut t = self.list;
        for i in 0..self.records {
            n += usize::from(self.is_chosen(i, body(t), row));
            t = rest(t);
        }
        n
    }

    // Whether n numbers are room enough; all records are so many.
    fn fits(&self, n: usize, row: &mut [Level]) -> bool
        requires { Asks self.now.query.now self.now.list.now self.now.table.now self.now.j × (selection_depth ≤ length row.old) }
        ensures { result ≡ leb (length (listed (selected self.now.query.now self.now.list.now))) n }
    {
        self.records <= n || self.count(row) <= n
    }

    fn fill(&self, rows: &mut [u8], row: &mut [Level]) -> usize
        requires { Asks self.now.query.now self.now.list.now self.now.table.now self.now.j × (selection_depth ≤ length row.old)
            × (length (row_bytes (listed (selected self.now.query.now self.now.list.now))) ≤ length rows.old) }
        ensures { (result ≡ length (row_bytes (listed (selected self.now.query.now self.now.list.now))))
            × (rows.new ≡ row_bytes (listed (selected self.now.query.now self.now.list.now)) ++ drop result rows.old) }
    {
        let mut w: usize = 0;
        let mut t = self.list;
        for i in 0..self.records {
            if self.is_chosen(i, body(t), row) {
                w = put_big4(rows, w, i as u32);
            }
            t = rest(t);
        }
        w
    }
}

// As the single call answers, over the rows that are left, where both verdicts are known; that on the list says how many records it has.
pub fn turn(
    query: &[u8],
    fault: Result<(), Refusal>,
    j: usize,
    list: &[u8],
    records: Result<usize, Refusal>,
    table: &[u8],
    rows: &mut [u8],
    row: &mut [Level],
) -> Result<usize, Refusal>
    requires { (fault ≡ checked (read_for_selection query.now)) × (records ≡ records_in (read_list list.now)) × Lent table.now j row.old
        × (fault ≡ Ok tt → (n : ℕ) → records ≡ Ok n → Column query.now list.now table.now j) }
    ensures { SelectsBytes query.now list.now rows.old [] rows.new [] result }
{
    fault?;
    let records = records?;
    let asking = Asking {
        query,
        list,
        records,
        table,
        j,
    };
    if !asking.fits(rows.len() / 4, row) {
        return Err(Refusal::LongAnswer);
    }
    Ok(asking.fill(rows, row) / 4)
}
