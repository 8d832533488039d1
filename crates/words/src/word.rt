// What a text is made of, and why it may not be.
ghost use Rattle.std.specs.Prelude.{◌≡◌};
ghost use Rattle.words.specs.Faults.{word_number, word_place};

use thiserror::Error;

// A word is a part of the text that it was read from.
#[derive(Clone, Copy)]
pub enum Word<'t> {
    Name(&'t [u8]),
    Number(&'t [u8]),
    Colon,
    Semicolon,
    Assign,
}

// Why a text has no next word; each case has the place.
#[derive(Clone, Copy, PartialEq, Eq, Debug, Error)]
pub enum WordFault {
    // a byte that begins no word
    #[error("no word begins with this byte")]
    Stray(usize),
    // a comment that is never closed
    #[error("this comment is never closed")]
    Unclosed(usize),
    // a number outside INT
    #[error("this number lies outside INT, -32768 to 32767")]
    OutsideInt(usize),
}

impl WordFault {
    // The number by which users know the fault.
    pub fn number(&self) -> u8
        ensures { result ≡ word_number self.now }
    {
        match self {
            WordFault::Stray(_) => 2,
            WordFault::Unclosed(_) => 3,
            WordFault::OutsideInt(_) => 4,
        }
    }

    // Where in the text it is.
    pub fn place(&self) -> usize
        ensures { result ≡ word_place self.now }
    {
        match self {
            WordFault::Stray(place) | WordFault::Unclosed(place) | WordFault::OutsideInt(place) =>
                *place,
        }
    }
}

// What a first byte begins.
#[derive(Clone, Copy)]
pub enum Class {
    Letter,
    Digit,
    Minus,
    Colon,
    Semicolon,
    Other,
}

// The words that are as long as the bytes behind the first go on with them. The definition of where a word ends takes one of them, and so does the code.
#[derive(Clone, Copy)]
pub enum Run {
    Name,
    Digits,
}
