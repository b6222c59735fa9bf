// Stop words: a word of at most five letters is a number, its bytes, the first one lowest, below a leading 1; and the stop words are a
// table of such numbers.
ghost use Rattle.std.specs.Prelude.{◌≡◌, ◌≤◌, eqb, length};
ghost use Rattle.rules.specs.Bytes.{some};
ghost use Rattle.rules.specs.Words.{is_stop_word};
ghost use Rattle.rules.specs.Analysis.{lowercase};
ghost use Rattle.analysis.specs.Stops.{packed, stop_keys};

use classes::lower;

// The longest of them.
const STOP_MOST: usize = 5;

// The source's order: a, an, and, ..
static STOP_KEYS: [u64; 33] = [
    0x161, // a
    0x16e61, // an
    0x1646e61, // and
    0x1657261, // are
    0x17361, // as
    0x17461, // at
    0x16562, // be
    0x1747562, // but
    0x17962, // by
    0x1726f66, // for
    0x16669, // if
    0x16e69, // in
    0x16f746e69, // into
    0x17369, // is
    0x17469, // it
    0x16f6e, // no
    0x1746f6e, // not
    0x1666f, // of
    0x16e6f, // on
    0x1726f, // or
    0x168637573, // such
    0x174616874, // that
    0x1656874, // the
    0x17269656874, // their
    0x16e656874, // then
    0x16572656874, // there
    0x16573656874, // these
    0x179656874, // they
    0x173696874, // this
    0x16f74, // to
    0x1736177, // was
    0x16c6c6977, // will
    0x168746977, // with
];

// The number of a word, lowercased.
fn key(word: &[u8]) -> u64
    requires { length word.now ≤ 5 }
    ensures { result ≡ packed (lowercase word.now) }
{
    let mut key: u64 = 1;
    for i in (0..word.len()).rev() {
        key = key * 256 + u64::from(lower(word[i]));
    }
    key
}

fn is_stop_key(key: u64) -> bool
    ensures { result ≡ some (eqb key) stop_keys }
{
    STOP_KEYS.contains(&key)
}

pub fn is_stop_word(word: &[u8]) -> bool
    ensures { result ≡ is_stop_word (lowercase word.now) }
{
    word.len() <= STOP_MOST && is_stop_key(key(word))
}
