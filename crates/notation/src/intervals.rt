// An interval as text: its low, two full stops and its high.
ghost use Rattle.std.specs.Prelude.{◌≡◌, ◌≤◌, length, IfOk, string_bytes};
ghost use Rattle.notation.specs.Intervals.{before_stop, read_interval, ends_text, interval_text};

use crate::Notation;
use crate::numerals::number_in;
use domain::Domain;
use interval::Interval;
use numbers::Int;
use std::alloc::{AllocError, Global};

// How many bytes stand before the first full stop.
fn before_stop(bytes: &[u8]) -> usize
    ensures is { result ≡ before_stop bytes.now }
    ensures within { result ≤ length bytes.now }
{
    bytes.iter().take_while(|b| **b != b'.').count()
}

fn read_interval(bytes: &[u8]) -> Option<Interval>
    ensures { result ≡ read_interval bytes.now }
{
    let count = before_stop(bytes);
    if bytes.get(count + 1) != Some(&b'.') {
        return None;
    }
    let low = number_in(&bytes[..count])?;
    let high = number_in(&bytes[count + 2..])?;
    Some(Interval { low, high })
}

fn ends_text(heap: Global, low: Int, high: Int) -> Result<String, AllocError>
    ensures { IfOk result (λ s. string_bytes s ≡ ends_text low high) }
{
    format!(in heap; "{low}..{high}")
}

fn interval_text(heap: Global, interval: Interval) -> Result<String, AllocError>
    ensures { IfOk result (λ s. string_bytes s ≡ interval_text interval) }
{
    if interval.low > interval.high {
        Ok(String::new(heap))
    } else {
        ends_text(heap, interval.low, interval.high)
    }
}

impl Notation for Interval {
    ghost written = { interval_text };

    ghost read_as = { read_interval };

    fn text(self, heap: Global) -> Result<String, AllocError> {
        interval_text(heap, self)
    }

    fn read(bytes: &[u8]) -> Option<Interval> {
        read_interval(bytes)
    }
}
