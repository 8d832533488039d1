// The number that an option is given.
ghost use Rattle.std.specs.Prelude.{◌≡◌};
ghost use Rattle.options.specs.Line.{most_of, value_for};

use crate::request::Limit;
use numbers::{capped, digits_only};

fn most_of(limit: Limit) -> usize
    ensures { result ≡ most_of limit }
{
    match limit {
        Limit::Statements => 1_024,
        Limit::Variables => 64,
        Limit::Sweeps => 65_535,
    }
}

// The value of digits that is not above its most.
pub(crate) fn value_for(limit: Limit, word: &[u8]) -> Option<usize>
    ensures { result ≡ value_for limit word.now }
{
    let value = capped::<65_536>(word) as usize;
    if !word.is_empty() && digits_only(word) && value <= most_of(limit) {
        Some(value)
    } else {
        None
    }
}
