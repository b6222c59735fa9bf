// A Boolean that is open while its clauses are asked, and what the answer to a clause does to it. The open Booleans stand in a row, six bytes
// each, so that their depth costs no call: a scheduler's thread has a small stack.
ghost use Rattle.std.specs.Prelude.{◌≡◌};
ghost use Rattle.rules.specs.Matching.{allows};
ghost use Rattle.rules.specs.Reading.{kind_of};
ghost use Rattle.matching.specs.Level.{answered, is_over};

use names::{MUST_NOT_TAG, NO_TAG, SHOULD_TAG};

// Stays: `met` says what no other field does, and an Option of the rest would lose the Level where it is false.
// Where it ends, how many true Should clauses it still asks for, whether a Must, a Filter or a true Should was met, and the tag of the
// clause at hand.
#[derive(Clone, Copy)]
pub struct Level {
    pub end: u16,
    pub asked: u16,
    pub met: bool,
    pub kind: u8,
}

// What a row holds where no Boolean is open.
// Stays: fixed memory: a row is filled with it, and no level is read before it is laid.
pub const NO_LEVEL: Level = Level {
    end: 0,
    asked: 0,
    met: false,
    kind: NO_TAG,
};

impl Level {
    // Whether the clause at hand allows its query to be true, or not.
    pub(crate) fn allows(self, yes: bool) -> bool
        ensures { result ≡ allows (kind_of self.kind) yes }
    {
        match self.kind {
            SHOULD_TAG => true,
            MUST_NOT_TAG => !yes,
            _ => yes,
        }
    }

    // After the clause at hand, whose query is true or not.
    // Stays: the definition `answered` takes the Bool, and most of what follows depends on the kind first.
    pub(crate) fn answered(self, yes: bool) -> Level
        ensures { result ≡ answered self yes }
    {
        if self.kind == MUST_NOT_TAG {
            return self;
        }
        if self.kind != SHOULD_TAG {
            return Level { met: true, ..self };
        }
        if !yes {
            return self;
        }
        Level {
            asked: self.asked.saturating_sub(1),
            met: true,
            ..self
        }
    }

    // Whether it is true with no clause left.
    pub(crate) fn is_over(self) -> bool
        ensures { result ≡ is_over self }
    {
        self.asked == 0 && self.met
    }
}
