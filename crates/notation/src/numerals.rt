// Numbers as they are written in sets: digits, or a minus and digits.
ghost use Rattle.std.specs.Prelude.{◌≡◌};
ghost use Rattle.notation.specs.Numerals.{is_numeral, numeral};

use numbers::{Int, digits_only};

// Whether digits follow a minus, if there is one.
fn is_numeral(bytes: &[u8]) -> bool
    ensures { result ≡ is_numeral bytes.now }
{
    match bytes {
        [] => false,
        [b'-', digits @ ..] => !digits.is_empty() && digits_only(digits),
        _ => digits_only(bytes),
    }
}

// The INT that a numeral writes.
pub fn number_in(bytes: &[u8]) -> Option<Int>
    ensures { result ≡ numeral bytes.now }
{
    if is_numeral(bytes) {
        numbers::value(bytes)
    } else {
        None
    }
}
