// INT and the value of a number word.
#![tactic(auto)]

ghost use Rattle.std.specs.Prelude.{◌≡◌, ◌<◌, min, length, pos, ◌≢◌, slice_index};
ghost use Rattle.numbers.specs.Int.{in_int};
ghost use Rattle.numbers.specs.Number.{decimal, digits_only, int_of};

// The whole numbers that a variable of kind INT can hold.
pub type Int = i16;

// The number that the digits write, or `MOST` where that is more.
pub fn capped<const MOST: u32>(digits: &[u8]) -> u32
    ensures { result ≡ min (decimal digits.now) MOST }
{
    let most = u64::from(MOST);
    let mut value = 0u64;
    for b in digits {
        value = (value * 10 + u64::from(b.saturating_sub(b'0'))).min(most);
    }
    value as u32
}

// Whether every byte is a digit.
pub fn digits_only(bytes: &[u8]) -> bool
    ensures { result ≡ digits_only bytes.now }
{
    bytes.iter().all(|b| b.is_ascii_digit())
}

// The number that the digits write, or 32,769 where that is more.
fn magnitude(digits: &[u8]) -> i32
    ensures { result ≡ pos (min (decimal digits.now) 32769) }
{
    capped::<32_769>(digits) as i32
}

// The number itself where it is an INT.
pub fn fit(value: i32) -> Option<Int>
    ensures { result ≡ in_int value }
{
    Int::try_from(value).ok()
}

// The INT that a minus and digits write.
fn negative(word: &[u8]) -> Option<Int>
    requires { (0 < length word.now) × (slice_index word.now 0 ≡ 45) }
    ensures { result ≡ int_of word.now }
{
    fit(-magnitude(&word[1..]))
}

// The INT that digits alone write.
fn plain(word: &[u8]) -> Option<Int>
    requires { slice_index word.now 0 ≢ 45 }
    ensures { result ≡ int_of word.now }
{
    fit(magnitude(word))
}

// The INT that a number word stands for: a first byte, minus or digit, and the rest, of any length.
pub fn value(word: &[u8]) -> Option<Int>
    ensures { result ≡ int_of word.now }
{
    match word {
        [] => Some(0),
        [first, ..] => {
            if *first == b'-' {
                negative(word)
            } else {
                plain(word)
            }
        }
    }
}

#[cfg(test)]
mod tests {
    use super::*;

    #[test]
    fn values_of_number_words(rt: HostRuntime) {
        let cases = [
            ("0", Some(0)),
            ("-0", Some(0)),
            ("007", Some(7)),
            ("32767", Some(32767)),
            ("32768", None),
            ("-32768", Some(-32768)),
            ("-32769", None),
            ("-00000000000000000000032768", Some(-32768)),
            ("4294967296", None),
            ("18446744073709551616", None),
        ];
        for (word, expected) in cases {
            assert_eq!(rt; value(word.as_bytes()), expected);
        }
        assert_eq!(rt; fit(32_767), Some(32_767));
        assert_eq!(rt; fit(-32_769), None);
        assert_eq!(rt; value(&[b'0'; 5000]), Some(0));
        assert_eq!(rt; value(&[b'9'; 5000]), None);
    }
}
