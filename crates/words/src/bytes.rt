// Kinds of bytes.
ghost use Rattle.std.specs.Prelude.{◌≡◌, slice_index};
ghost use Rattle.words.specs.Bytes.{blank, begins_name, in_name, goes_on, closes};
ghost use Rattle.words.specs.Words.{class_of};

use crate::word::{Class, Run};

pub fn is_blank(b: u8) -> bool
    ensures { result ≡ blank b }
{
    // four comparisons, which the compiler makes into one test; of a pattern it makes three
    b == b' ' || b == b'\t' || b == b'\r' || b == b'\n'
}

fn begins_name(b: u8) -> bool
    ensures { result ≡ begins_name b }
{
    b.is_ascii_alphabetic() || b == b'_'
}

// Whether a byte behind the first goes on with the word.
pub fn goes_on(run: Run, b: u8) -> bool
    ensures { result ≡ goes_on run b }
{
    match run {
        Run::Name => begins_name(b) || b.is_ascii_digit(),
        Run::Digits => b.is_ascii_digit(),
    }
}

pub fn closes_comment(b: u8, c: u8) -> bool
    ensures { result ≡ closes b c }
{
    b == b'*' && c == b')'
}

pub fn class_of(b: u8) -> Class
    ensures { result ≡ class_of b }
{
    match b {
        _ if begins_name(b) => Class::Letter,
        b'0'..=b'9' => Class::Digit,
        b'-' => Class::Minus,
        b':' => Class::Colon,
        b';' => Class::Semicolon,
        _ => Class::Other,
    }
}

// The byte at a place, or 0 past the end.
pub fn byte_at(text: &[u8], place: usize) -> u8
    ensures { result ≡ slice_index text.now place }
{
    text.get(place).copied().unwrap_or(0)
}
