// The interval domain: nothing, or the INTs from a low to a high end.
#![tactic(auto)]

ghost use Rattle.std.specs.Prelude.{◌≡◌, ◌+ℤ◌, ◌-ℤ◌, ◌*ℤ◌, int_div};
ghost use Rattle.interval.specs.Ends.{results, quotients};
ghost use Rattle.interval.specs.Exact.{Exact};
ghost use Rattle.interval.specs.Interval.{interval_ops, ends};
ghost use Rattle.interval.specs.Meaning;

mod ends;

use domain::{Domain, Truth};
use ends::{Ends, results};
use numbers::Int;

// The INTs from `low` to `high`; a record whose low is above its high contains nothing.
#[derive(Clone, Copy, PartialEq, Eq, Debug)]
pub struct Interval {
    pub low: Int,
    pub high: Int,
}

// The sums before they are cut to INT.
fn sums(x: Interval, y: Interval) -> Ends
    ensures { result ≡ results ◌+ℤ◌ (ends x) (ends y) }
{
    results(|a, b| a as i32 + b as i32, x, y)
}

// The differences before they are cut to INT.
fn differences(x: Interval, y: Interval) -> Ends
    ensures { result ≡ results ◌-ℤ◌ (ends x) (ends y) }
{
    results(|a, b| a as i32 - b as i32, x, y)
}

// The products before they are cut to INT.
fn products(x: Interval, y: Interval) -> Ends
    ensures { result ≡ results ◌*ℤ◌ (ends x) (ends y) }
{
    results(|a, b| a as i32 * b as i32, x, y)
}

// The quotient without its fraction; 0 for a divisor 0.
fn quotient(a: Int, b: Int) -> i32
    ensures { result ≡ int_div a b }
{
    if b == 0 { 0 } else { a as i32 / b as i32 }
}

// The quotients for the negative and for the positive part of the divisor, and all that lies between.
fn quotients(x: Interval, y: Interval) -> Ends
    ensures { result ≡ quotients (ends x) (ends y) }
{
    let negative = Interval {
        low: y.low,
        high: y.high.min(-1),
    };
    let positive = Interval {
        low: y.low.max(1),
        high: y.high,
    };
    results(quotient, x, negative).join(results(quotient, x, positive))
}

// Does nothing: its contract is the theorem that a yes of the interval's questions, and a flag that is on, has numbers in both intervals for its reason.
pub fn answers_are_exact()
    ensures { Exact }
{}

impl Domain for Interval {
    ghost ops = { interval_ops };

    ghost lawful = { Meaning.lawful };

    fn span(low: Int, high: Int) -> Interval {
        Interval { low, high }
    }

    fn contains(self, n: Int) -> bool {
        self.low <= n && n <= self.high
    }

    fn within(self, other: Interval) -> bool {
        self.high < self.low || other.low <= self.low && self.high <= other.high
    }

    fn is_empty(self) -> bool {
        self.low > self.high
    }

    fn add(self, other: Interval) -> Interval {
        sums(self, other).cut()
    }

    fn sub(self, other: Interval) -> Interval {
        differences(self, other).cut()
    }

    fn mul(self, other: Interval) -> Interval {
        products(self, other).cut()
    }

    fn div(self, other: Interval) -> Interval {
        quotients(self, other).cut()
    }

    fn add_overflows(self, other: Interval) -> bool {
        sums(self, other).overflows()
    }

    fn sub_overflows(self, other: Interval) -> bool {
        differences(self, other).overflows()
    }

    fn mul_overflows(self, other: Interval) -> bool {
        products(self, other).overflows()
    }

    fn less(self, other: Interval) -> Truth {
        let both = self.low <= self.high && other.low <= other.high;
        Truth {
            can_be_true: both && self.low < other.high,
            can_be_false: both && other.low <= self.high,
        }
    }

    fn equal(self, other: Interval) -> Truth {
        let both = self.low <= self.high && other.low <= other.high;
        Truth {
            can_be_true: both && self.low <= other.high && other.low <= self.high,
            can_be_false: both && (self.low < other.high || other.low < self.high),
        }
    }

    fn join(self, other: Interval) -> Interval {
        if self.high < self.low {
            return other;
        }
        if other.high < other.low {
            return self;
        }
        Interval {
            low: self.low.min(other.low),
            high: self.high.max(other.high),
        }
    }

    fn widen(self, joined: Interval) -> Interval {
        if self.high < self.low || joined.high < joined.low {
            return joined;
        }
        Interval {
            low: if joined.low < self.low {
                Int::MIN
            } else {
                joined.low
            },
            high: if self.high < joined.high {
                Int::MAX
            } else {
                joined.high
            },
        }
    }
}
