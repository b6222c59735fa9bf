// The analyzer of a field: up to eight names, each with an analyzer of its own, and a default for all others.
// The names are an array of byte arrays, with their lengths and analyzers beside it.
// Stays: docs/ANSWERS.md names `analyzer_of`, which may ask no more of its arrays, and `array_entries` says what they mean (docs/DECISIONS.md, "The entries of a setup").
#![tactic(auto)]

ghost use Rattle.std.specs.Prelude.{◌≡◌};
ghost use Rattle.rules.specs.Setup.{analyzer_among};
ghost use Rattle.fields.specs.Fields.{array_entries};

use names::{ENTRIES_MOST, FIELD_MOST};

// The analyzer of a field. A later entry replaces an earlier, so the search goes from the last. The arrays are lent: by value they would be copied
// for every field that a text names.
pub fn analyzer_of(
    names: &[[u8; FIELD_MOST]; ENTRIES_MOST],
    lengths: &[u8; ENTRIES_MOST],
    analyzers: &[u8; ENTRIES_MOST],
    count: usize,
    default: u8,
    field: &[u8],
) -> u8
    ensures { result ≡ analyzer_among default (array_entries names.now lengths.now analyzers.now count) field.now }
{
    for k in (0..count.min(ENTRIES_MOST)).rev() {
        let row = &names[k];
        let name = &row[..usize::from(lengths[k]).min(FIELD_MOST)];
        if name == field {
            return analyzers[k];
        }
    }
    default
}
