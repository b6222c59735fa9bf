// Whether a query is true of one record of a list, by the way that costs less: a short query looks for each term from entry to entry. For a long
// one it is found once which entries it wants; a record with none of them is answered as a record with no entry is, and the entries of the others
// are noted before the query is asked.
ghost use Rattle.std.specs.Prelude.{◌≡◌};
ghost use Rattle.matching.specs.Truth.{StoredFor};
ghost use Rattle.selection.specs.Ask.{Clean, Fresh, Begun, Prepared, Ready, Asked};

use entries::slots::{SLOTS, note};
use matching::level::{Level, NO_LEVEL};
use matching::truth::holds;
use names::SELECTION_DEPTH;
use wanted::{any_called, mark_query};

// A query of so many bytes is long: to go from entry to entry for each of its terms is more work than to note every entry.
const LONG: usize = 256;

// Stays: two answers that do not depend on each other; an enum would have four cases.
// Of a long query: whether it may have a range, and what it says of a record with no entry.
#[derive(Clone, Copy)]
pub struct Plan {
    pub ranges: bool,
    pub bare: bool,
}

// A query, its plan where it is long, and the rows that it is asked with, which are made once for all records.
#[derive(Drop)]
pub struct Question<'a> {
    query: &'a [u8],
    plan: Option<Plan>,
    wanted: [u8; SLOTS],
    slots: [u16; SLOTS],
    row: [Level; SELECTION_DEPTH],
}

impl<'a> Question<'a> {
    // Not prepared yet: that is done where the rows stand, so that none is copied.
    pub fn new(query: &'a [u8]) -> Question<'a>
        ensures { Fresh query.now result }
    {
        Question {
            query,
            plan: None,
            wanted: [0; SLOTS],
            slots: [0; SLOTS],
            row: [NO_LEVEL; SELECTION_DEPTH],
        }
    }

    // Before the first record.
    pub fn prepare(&mut self)
        requires { StoredFor self.old.query.now × Clean self.old }
        ensures { Begun self.old.query.now self.new }
    {
        if self.query.len() >= LONG {
            let bare = holds(self.query, &[], 0, &[], &mut self.row);
            let ranges = mark_query(self.query, &mut self.wanted);
            self.plan = Some(Plan { ranges, bare });
        }
    }

    // Of a record whose entries stand from `from` on.
    pub fn is_chosen(&mut self, rec: &[u8], from: usize) -> bool
        requires { Prepared self.old × Ready self.old.slots rec.now from }
        ensures { Asked self.old rec.now from self.new result }
    {
        let Some(plan) = self.plan else {
            return holds(self.query, rec, from, &[], &mut self.row);
        };
        if !any_called(&self.wanted, plan.ranges, rec) {
            return plan.bare;
        }
        note(rec, from, &mut self.slots);
        holds(self.query, rec, from, &self.slots, &mut self.row)
    }
}
