// How the clauses of a query were counted, and what that says of the query: whether it is its one clause, and how long it is.
#![tactic(auto)]

ghost use Rattle.std.specs.Prelude.{◌≡◌, ℕ, ◌+◌, ◌*◌, ◌≤◌};
ghost use Rattle.rules.specs.Query.{Clauses};
ghost use Rattle.rules.specs.Parsing.{query_of};
ghost use Rattle.counted.specs.Kinds.{made_length, is_alone, Sums};

use names::{BOOLEAN_FRONT, HEADER, MUST_NOT_TAG};

// What is known of kept clauses: how many there are, the last one's tag, how many bytes they take.
// Stays: no Option for the tag where there is none, nor for a length: the definitions `last_tag` and `made_length` give 0.
#[derive(Clone, Copy)]
pub struct Sum {
    pub count: usize,
    pub tag: u8,
    pub bytes: usize,
}

// The clauses of a query that were read, and the number of the next token.
#[derive(Clone, Copy)]
pub struct Counted {
    pub sum: Sum,
    pub next: usize,
}

impl Sum {
    // One kept Must or Should clause stands for itself.
    pub fn is_alone(self) -> bool
        ensures { (cs : Clauses) (bytes : ℕ) → Sums cs self.count self.tag bytes → result ≡ is_alone cs }
    {
        self.count == 1 && self.tag < MUST_NOT_TAG
    }

    // How long the query of kept clauses is; 0 where none is kept.
    pub fn query_len(self) -> usize
        requires { (self.bytes ≤ 1000000) × (3 * self.count ≤ self.bytes) }
        ensures made { (cs : Clauses) → Sums cs self.count self.tag self.bytes → result ≡ made_length (query_of cs) }
        ensures bound { result ≤ 8 + self.bytes }
    {
        if self.count == 0 {
            return 0;
        }
        if self.is_alone() {
            return self.bytes - HEADER;
        }
        BOOLEAN_FRONT + self.bytes
    }
}
