// The classes of bytes: what the table says of a byte, and letters, gaps and capitals.
#![tactic(auto)]

ghost use Rattle.std.specs.Prelude.{◌≡◌, ◌<◌, get_or};
ghost use Rattle.rules.specs.Analysis.{is_letter, is_gap, class_of, classes};
ghost use Rattle.rules.specs.Analysis.{lower as lowered};

pub mod table;

use crate::table::CLASSES;

// The classes of an ASCII byte, by whatever table is lent.
pub fn class_at(table: &[u8; 128], c: u8) -> u8
    requires { c < 128 }
    ensures { result ≡ get_or table.now c 0 }
{
    table[usize::from(c)]
}

// The classes of an ASCII byte by the table of the rules.
pub fn ascii_class(c: u8) -> u8
    requires { c < 128 }
    ensures { result ≡ get_or classes c 0 }
{
    class_at(&CLASSES, c)
}

// The classes of any byte: those from 128 on have none.
pub fn class_of(c: u8) -> u8
    ensures { result ≡ class_of c }
{
    CLASSES.get(usize::from(c)).copied().unwrap_or(0)
}

pub fn is_letter(c: u8) -> bool
    ensures { result ≡ is_letter c }
{
    c.is_ascii_alphabetic()
}

// The separators of ASCII, 1C to 1F, stand before the blank.
const FIRST_SEPARATOR: u8 = 0x1c;

// Where the whitespace analyzer splits: 1C to 1F too, which the lexer takes for parts of a term. Most bytes stand above the blank, so that is asked first.
pub fn is_gap(c: u8) -> bool
    ensures { result ≡ is_gap c }
{
    c <= b' ' && (FIRST_SEPARATOR <= c || matches!(c, b'\t'..=b'\r'))
}

pub fn lower(c: u8) -> u8
    ensures { result ≡ lowered c }
{
    c.to_ascii_lowercase()
}
