// Refusals: why a call gives no answer. C, the lists and the documents know each by its number.
ghost use Rattle.std.specs.Prelude.{◌≡◌};
ghost use Rattle.names.specs.Refusals.{numbered};

#[derive(Clone, Copy, Debug, PartialEq, Eq)]
pub enum Refusal {
    LongText = 1,
    NotAscii = 2,
    BadSetup = 3,
    OpenQuote = 4,
    NothingEscaped = 5,
    RangeBracket = 6,
    Wildcard = 7,
    FuzzyTerm = 8,
    SloppyPhrase = 9,
    UnexpectedEnd = 10,
    UnexpectedToken = 11,
    OpenBracket = 12,
    BadNumeral = 13,
    NoNumeral = 14,
    LongField = 15,
    ManyBrackets = 16,
    LongNumeral = 17,
    LongAnswer = 18,
    LongQuery = 19,
    MalformedQuery = 20,
    DeepQuery = 21,
    LongList = 22,
    MalformedList = 23,
    ManyQueries = 24,
    ShortRoom = 32,
}

impl From<Refusal> for u8 {
    ghost from_gives = { λ r n. n ≡ numbered r };

    fn from(r: Refusal) -> u8 {
        r as u8
    }
}

// What is wrong with a text, and where: a byte of it, or a token, as the function says that refuses it.
#[derive(Clone, Copy, Debug, PartialEq, Eq)]
pub struct Fault {
    pub refusal: Refusal,
    pub place: usize,
}
