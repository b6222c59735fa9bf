// What both passes hand down through the grammar.
ghost use Rattle.clauses.specs.Measured.{Rowed};

// The row of tokens that the lexer left in the room, and the default field.
#[derive(Clone, Copy)]
pub struct Row<'a> {
    pub room: &'a [u8],
    pub n: usize,
    pub default: &'a [u8],
    ghost rowed: { Rowed room.now n },
}

// The field in force by number, how many brackets are open, the operator of the setup, the analyzer of the field.
// The wide ones stand first: so it is three words on the stack, for each bracket.
// Stays: `row::field_part`, which docs/ANSWERS.md names, and its definition `name_from` take the field as a number; operator and analyzer are the numbers that `gorbihesh_parse` is handed from C, and that the definitions of `rules` take.
#[derive(Clone, Copy)]
pub struct Scope {
    pub from: usize,
    pub depth: usize,
    pub operator: u8,
    pub analyzer: u8,
}
