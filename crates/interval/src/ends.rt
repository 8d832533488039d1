// Ends of results before they are cut to INT.
ghost use Rattle.std.specs.Prelude.{◌≡◌, ℤ};
ghost use Rattle.numbers.specs.Int.{lowest, highest};
ghost use Rattle.domain.specs.Computed.{Computes};
ghost use Rattle.interval.specs.Ends.{least_to_greatest, results, hull, leaves};
ghost use Rattle.interval.specs.Interval.{ends, fitted};

use crate::Interval;
use numbers::Int;

// The whole numbers from `low` to `high`. One type with `Interval`, over the number's type, would be no plainer: of what they do only the join of two lines is alike.
#[derive(Clone, Copy)]
pub(crate) struct Ends {
    pub low: i32,
    pub high: i32,
}

// From the least to the greatest of four results.
fn spread(p: i32, q: i32, r: i32, s: i32) -> Ends
    ensures { result ≡ least_to_greatest p q r s }
{
    Ends {
        low: p.min(q).min(r.min(s)),
        high: p.max(q).max(r.max(s)),
    }
}

// From the least to the greatest result of the ends, none where a side has no number.
pub(crate) fn results<F: Fn(Int, Int) -> i32>(operation: F, x: Interval, y: Interval) -> Ends
    requires { F.IsAlwaysCallable operation }
    ensures { (op : ℤ → ℤ → ℤ) → Computes F.Fn op operation → result ≡ results op (ends x) (ends y) }
{
    if x.low <= x.high && y.low <= y.high {
        spread(
            operation(x.low, y.low),
            operation(x.low, y.high),
            operation(x.high, y.low),
            operation(x.high, y.high),
        )
    } else {
        Ends { low: 1, high: 0 }
    }
}

impl Ends {
    // The smallest ends over both.
    pub(crate) fn join(self, other: Ends) -> Ends
        ensures { result ≡ hull self other }
    {
        if self.low > self.high {
            return other;
        }
        if other.low > other.high {
            return self;
        }
        Ends {
            low: self.low.min(other.low),
            high: self.high.max(other.high),
        }
    }

    // What of it lies inside INT.
    pub(crate) fn cut(self) -> Interval
        ensures { result ≡ fitted self }
    {
        let low = self.low.max(Int::MIN as i32);
        let high = self.high.min(Int::MAX as i32);
        if low <= high {
            Interval {
                low: low as Int,
                high: high as Int,
            }
        } else {
            Interval { low: 1, high: 0 }
        }
    }

    // Whether some of it lies outside INT.
    pub(crate) fn overflows(self) -> bool
        ensures { result ≡ leaves lowest highest self }
    {
        self.low <= self.high && (self.low < Int::MIN as i32 || self.high > Int::MAX as i32)
    }
}
