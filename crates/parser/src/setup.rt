// The setup of a call: its entries are tested and read into arrays, and the analyzer of each field that the text names is noted
// at the name's token, so that the parser hands down a number.
ghost use Rattle.std.specs.Prelude.{◌≡◌, true, ◌&&◌, leb, List, [], ℕ, ◌≤◌, ◌<◌, length, get_or};
ghost use Rattle.rules.specs.Numbers.{field_most, and_operator};
ghost use Rattle.rules.specs.Bytes.{is_field};
ghost use Rattle.rules.specs.Setup.{is_analyzer, analyzer_among};
ghost use Rattle.fields.specs.Fields.{array_entries};
ghost use Rattle.clauses.specs.Measured.{Rowed};
ghost use Rattle.parser.specs.Noted.{RowPut, Entered, Noted};

use fields::analyzer_of;
use names::{
    AND_OPERATOR, ASCII_MOST, COLON_KIND, ENGLISH_ANALYZER, ENTRIES_MOST, FIELD_MOST, TERM_KIND,
    WHITESPACE_ANALYZER,
};
use row::{kind_at, put_note, text_at};
use stretches::is_field;

fn is_analyzer(a: u8) -> bool
    ensures { result ≡ is_analyzer a }
{
    matches!(a, WHITESPACE_ANALYZER..=ENGLISH_ANALYZER)
}

// The head of an entry keeps the rules: an analyzer, and a name that is short enough.
fn is_head(analyzer: u8, len: u8) -> bool
    ensures { result ≡ (leb len field_most && is_analyzer analyzer) }
{
    usize::from(len) <= FIELD_MOST && is_analyzer(analyzer)
}

// The operator, the default analyzer and the default field keep the rules.
pub fn is_plain(operator: u8, analyzer: u8, field: &[u8]) -> bool
    ensures { result ≡ (leb operator and_operator && (is_analyzer analyzer && is_field field.now)) }
{
    operator <= AND_OPERATOR && is_analyzer(analyzer) && is_field(field)
}

// Lays a name in a row; false where a byte of it is not ASCII.
// Stays: one loop for both, since a call to copy four bytes takes longer.
fn put_row(row: &mut [u8; FIELD_MOST], s: &[u8]) -> bool
    requires { (length row.old ≡ 32) × (length s.now ≤ 32) }
    ensures { RowPut s.now result row.new }
{
    for (i, &c) in s.iter().enumerate() {
        if ASCII_MOST < c {
            return false;
        }
        row[i] = c;
    }
    true
}

// Reads the entries into the arrays, and returns how many there are; none where they break a rule.
pub fn read_entries(
    fields: &[u8],
    names: &mut [[u8; FIELD_MOST]; ENTRIES_MOST],
    lengths: &mut [u8; ENTRIES_MOST],
    analyzers: &mut [u8; ENTRIES_MOST],
) -> Option<usize>
    requires { (length names.old ≡ 8) × (length lengths.old ≡ 8) × (length analyzers.old ≡ 8) × ((k : ℕ) → k < 8 → length (get_or names.old k []) ≡ 32) }
    ensures { Entered fields.now names.new lengths.new analyzers.new result }
{
    // Stays: an entry ends where its length says, and what breaks a rule ends the reading; count is the answer too.
    let mut rest = fields;
    let mut count: usize = 0;
    while let [analyzer, len, tail @ ..] = rest {
        let (name, after) = tail.split_at_checked(usize::from(*len))?;
        if count == ENTRIES_MOST || !is_head(*analyzer, *len) || !put_row(&mut names[count], name) {
            return None;
        }
        lengths[count] = *len;
        analyzers[count] = *analyzer;
        count += 1;
        rest = after;
    }
    if !rest.is_empty() {
        return None;
    }
    Some(count)
}

// Notes at each field name the analyzer of that field. Few tokens are colons, so the colon is asked for first.
pub fn note_fields(
    room: &mut [u8],
    n: usize,
    names: &[[u8; FIELD_MOST]; ENTRIES_MOST],
    lengths: &[u8; ENTRIES_MOST],
    analyzers: &[u8; ENTRIES_MOST],
    count: usize,
    default: u8,
)
    requires { (Rowed room.old n) × ((f : List ℕ) → is_analyzer (analyzer_among default (array_entries names.now lengths.now analyzers.now count) f) ≡ true) }
    ensures { Noted n (array_entries names.now lengths.now analyzers.now count) default room.old room.new }
{
    for i in 1..n {
        if kind_at(room, n, i) == COLON_KIND && kind_at(room, n, i - 1) == TERM_KIND {
            let name = text_at(room, i - 1);
            let a = analyzer_of(names, lengths, analyzers, count, default, name);
            put_note(room, i - 1, a);
        }
    }
}
