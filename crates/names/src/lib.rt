// The numbers of the rules, each once, under the name that `rules/specs/Numbers` and `rules/specs/Lexing` give it: limits, rooms,
// operators, analyzers, tags, kinds of token, classes of bytes, patterns of floats; the module `refusal` has the refusals; and how many bytes the stored form has for what it
// holds. Whoever uses one is proved against the definition of that name.
#![tactic(auto)]

pub mod refusal;

// ---- limits

pub const TEXT_MOST: usize = 1024;

pub const FIELD_MOST: usize = 32;

pub const ENTRIES_MOST: usize = 8;

pub const BRACKETS_MOST: usize = 24;

pub const NUMERAL_MOST: usize = 40;

pub const CHUNK_MOST: usize = 255;

// the largest byte of a text
pub const ASCII_MOST: u8 = 0x7f;

pub const REWRITER_BYTES: usize = 32768;

pub const REWRITER_DEPTH: usize = 64;

pub const SELECTION_BYTES: usize = 65535;

pub const SELECTION_DEPTH: usize = 192;

pub const LIST_MOST: usize = 65536;

pub const QUERIES_MOST: usize = 64;

// ---- working room of each call

pub const PARSE_ROOM: usize = 5120;

pub const REWRITE_ROOM: usize = 38229;

pub const SELECT_ROOM: usize = 0;

pub const SELECT_ALL_ROOM: usize = 16384;

// ---- operators and analyzers

pub const OR_OPERATOR: u8 = 0;

pub const AND_OPERATOR: u8 = 1;

pub const WHITESPACE_ANALYZER: u8 = 1;

pub const SIMPLE_ANALYZER: u8 = 2;

pub const KEYWORD_ANALYZER: u8 = 3;

pub const WORDS_ANALYZER: u8 = 4;

pub const ENGLISH_ANALYZER: u8 = 5;

// ---- bytes of the stored form: a part's header is a tag and a length of two bytes

pub const HEADER: usize = 3;

pub const MINIMUM_BYTES: usize = 2;

pub const POSITION_BYTES: usize = 4;

pub const BOOST_BYTES: usize = 4;

// the number of a bound and of a value
pub const NUMBER_BYTES: usize = 8;

// what stands before the query of a Boost, and before the clauses of a Boolean
pub const BOOST_FRONT: usize = HEADER + BOOST_BYTES;

pub const BOOLEAN_FRONT: usize = HEADER + HEADER + MINIMUM_BYTES;

// ---- tags: queries

// Stays: a tag and a kind are bytes of the stored form and of the row; an enum would be made of the byte at each look, and the definitions take numbers.

pub const TERM_TAG: u8 = 0x01;

pub const PHRASE_TAG: u8 = 0x02;

pub const BOOLEAN_TAG: u8 = 0x03;

pub const BOOST_TAG: u8 = 0x04;

pub const CONSTANT_SCORE_TAG: u8 = 0x05;

pub const MATCH_ALL_TAG: u8 = 0x06;

pub const MATCH_NONE_TAG: u8 = 0x07;

pub const WHOLE_RANGE_TAG: u8 = 0x08;

pub const FLOAT_RANGE_TAG: u8 = 0x09;

// ---- tags: what queries and entries hold

pub const FIELD_TAG: u8 = 0x10;

pub const TEXT_TAG: u8 = 0x11;

pub const WORD_TAG: u8 = 0x12;

pub const MINIMUM_TAG: u8 = 0x13;

pub const VALUE_TAG: u8 = 0x14;

// ---- tags: clauses; where no clause stands there is none

pub const NO_TAG: u8 = 0;

pub const MUST_TAG: u8 = 0x20;

pub const SHOULD_TAG: u8 = 0x21;

pub const MUST_NOT_TAG: u8 = 0x22;

pub const FILTER_TAG: u8 = 0x23;

// ---- tags: bounds

pub const OPEN_TAG: u8 = 0x30;

pub const INCLUDED_TAG: u8 = 0x31;

pub const EXCLUDED_TAG: u8 = 0x32;

// ---- tags: lists

pub const RECORD_TAG: u8 = 0x40;

pub const PLACE_TAG: u8 = 0x41;

pub const WHOLE_TAG: u8 = 0x44;

pub const FLOAT_TAG: u8 = 0x45;

// ---- kinds of token

pub const END_KIND: u8 = 0;

pub const TERM_KIND: u8 = 1;

pub const QUOTED_KIND: u8 = 2;

pub const COLON_KIND: u8 = 3;

pub const PLUS_KIND: u8 = 4;

pub const MINUS_KIND: u8 = 5;

pub const NOT_KIND: u8 = 6;

pub const AND_KIND: u8 = 7;

pub const OR_KIND: u8 = 8;

pub const OPEN_KIND: u8 = 9;

pub const CLOSE_KIND: u8 = 10;

pub const CARET_KIND: u8 = 11;

pub const TILDE_KIND: u8 = 12;

// ---- classes of bytes, as flags of one table: what a text's end and its words ask. The higher ones are told by comparison.

pub const SPACE_CLASS: u8 = 1;

pub const END_CLASS: u8 = 2;

// what joins two letters, and two digits, in a word
pub const MID_LETTERS_CLASS: u8 = 4;

pub const MID_NUMBERS_CLASS: u8 = 8;

pub const UNDERSCORE_CLASS: u8 = 16;

pub const DIGIT_CLASS: u8 = 32;

pub const LETTER_CLASS: u8 = 64;

// ---- patterns of floats with no sign, the sign, and the step from one exponent to the next: at 32 bits, then at 64

pub const INFINITY: u32 = 0x7f80_0000;

pub const THE_NAN: u32 = 0x7fc0_0000;

pub const SIGN: u32 = 0x8000_0000;

pub const EXPONENT_STEP: u32 = 0x80_0000;

pub const WIDE_INFINITY: u64 = 0x7ff0_0000_0000_0000;

pub const WIDE_NAN: u64 = 0x7ff8_0000_0000_0000;

pub const WIDE_SIGN: u64 = 0x8000_0000_0000_0000;

pub const WIDE_EXPONENT_STEP: u64 = 0x10_0000_0000_0000;
