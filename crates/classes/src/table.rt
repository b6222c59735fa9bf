// The table of classes: each ASCII byte's, as flags. The lexer reads it, and the analyzers of words.
ghost use Rattle.std.specs.Prelude.{◌≡◌};
ghost use Rattle.rules.specs.Analysis.{classes};

use names::{
    DIGIT_CLASS, END_CLASS, LETTER_CLASS, MID_LETTERS_CLASS, MID_NUMBERS_CLASS, SPACE_CLASS,
    UNDERSCORE_CLASS,
};

// The table is that of the rules, entry by entry. Whoever asks of a byte reads the static itself: what is returned here is a copy.
pub fn table() -> [u8; 128]
    ensures { result ≡ classes }
{
    CLASSES
}

pub static CLASSES: [u8; 128] = [
    0,
    0,
    0,
    0,
    0,
    0,
    0,
    0,
    0,
    SPACE_CLASS + END_CLASS, // 09
    SPACE_CLASS + END_CLASS, // 0a
    SPACE_CLASS + END_CLASS, // 0b
    SPACE_CLASS + END_CLASS, // 0c
    SPACE_CLASS + END_CLASS, // 0d
    0,
    0,
    0,
    0,
    0,
    0,
    0,
    0,
    0,
    0,
    0,
    0,
    0,
    0,
    0, // 1c
    0,
    0,
    0,
    SPACE_CLASS + END_CLASS, // 20
    END_CLASS, // !
    END_CLASS, // "
    0,
    0,
    0,
    0,
    MID_LETTERS_CLASS + MID_NUMBERS_CLASS, // '
    END_CLASS, // (
    END_CLASS, // )
    END_CLASS, // *
    0,
    MID_NUMBERS_CLASS, // ,
    0,
    MID_LETTERS_CLASS + MID_NUMBERS_CLASS, // .
    0,
    DIGIT_CLASS, // 0
    DIGIT_CLASS, // 1
    DIGIT_CLASS, // 2
    DIGIT_CLASS, // 3
    DIGIT_CLASS, // 4
    DIGIT_CLASS, // 5
    DIGIT_CLASS, // 6
    DIGIT_CLASS, // 7
    DIGIT_CLASS, // 8
    DIGIT_CLASS, // 9
    END_CLASS + MID_LETTERS_CLASS, // :
    MID_NUMBERS_CLASS, // ;
    0,
    0,
    0,
    END_CLASS, // ?
    0,
    LETTER_CLASS, // A
    LETTER_CLASS, // B
    LETTER_CLASS, // C
    LETTER_CLASS, // D
    LETTER_CLASS, // E
    LETTER_CLASS, // F
    LETTER_CLASS, // G
    LETTER_CLASS, // H
    LETTER_CLASS, // I
    LETTER_CLASS, // J
    LETTER_CLASS, // K
    LETTER_CLASS, // L
    LETTER_CLASS, // M
    LETTER_CLASS, // N
    LETTER_CLASS, // O
    LETTER_CLASS, // P
    LETTER_CLASS, // Q
    LETTER_CLASS, // R
    LETTER_CLASS, // S
    LETTER_CLASS, // T
    LETTER_CLASS, // U
    LETTER_CLASS, // V
    LETTER_CLASS, // W
    LETTER_CLASS, // X
    LETTER_CLASS, // Y
    LETTER_CLASS, // Z
    END_CLASS, // [
    0,
    END_CLASS, // ]
    END_CLASS, // ^
    UNDERSCORE_CLASS, // _
    0,
    LETTER_CLASS, // a
    LETTER_CLASS, // b
    LETTER_CLASS, // c
    LETTER_CLASS, // d
    LETTER_CLASS, // e
    LETTER_CLASS, // f
    LETTER_CLASS, // g
    LETTER_CLASS, // h
    LETTER_CLASS, // i
    LETTER_CLASS, // j
    LETTER_CLASS, // k
    LETTER_CLASS, // l
    LETTER_CLASS, // m
    LETTER_CLASS, // n
    LETTER_CLASS, // o
    LETTER_CLASS, // p
    LETTER_CLASS, // q
    LETTER_CLASS, // r
    LETTER_CLASS, // s
    LETTER_CLASS, // t
    LETTER_CLASS, // u
    LETTER_CLASS, // v
    LETTER_CLASS, // w
    LETTER_CLASS, // x
    LETTER_CLASS, // y
    LETTER_CLASS, // z
    END_CLASS, // {
    0,
    END_CLASS, // }
    END_CLASS, // ~
    0,
];
