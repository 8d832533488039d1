// Sets of INTs behind one interface: what every numeric domain can do, and what holds of it.
#![tactic(auto)]

ghost use Rattle.std.specs.Prelude.{◌≡◌};
ghost use Rattle.domain.specs.Domain.{Ops, Lawful, joined_spans, HoldsEach, LeastOver};

use numbers::Int;

// What a comparison of two sets can come to.
#[derive(Clone, Copy, PartialEq, Eq, Debug)]
pub struct Truth {
    pub can_be_true: bool,
    pub can_be_false: bool,
}

// A kind of sets of INTs. `Lawful` is all that an implementation owes, and all that code over any kind may use.
pub trait Domain: Sized + Copy {
    ghost ops: { Ops Self };

    // The INTs from `low` to `high`, none if `low` is above `high`.
    fn span(low: Int, high: Int) -> Self
        ensures { result ≡ ops.span low high };

    // Whether `n` is in the set.
    fn contains(self, n: Int) -> bool
        ensures { result ≡ ops.contains self n };

    // Whether `other` surely has all that this set has.
    fn within(self, other: Self) -> bool
        ensures { result ≡ ops.within self other };

    // Whether the set surely has nothing.
    fn is_empty(self) -> bool
        ensures { result ≡ ops.is_empty self };

    // The sums inside INT of one number from each side.
    fn add(self, other: Self) -> Self
        ensures { result ≡ ops.add self other };

    // The differences inside INT.
    fn sub(self, other: Self) -> Self
        ensures { result ≡ ops.sub self other };

    // The products inside INT.
    fn mul(self, other: Self) -> Self
        ensures { result ≡ ops.mul self other };

    // The quotients inside INT, without their fractions; a divisor 0 gives none.
    fn div(self, other: Self) -> Self
        ensures { result ≡ ops.div self other };

    // Whether a sum can leave INT.
    fn add_overflows(self, other: Self) -> bool
        ensures { result ≡ ops.add_overflows self other };

    // Whether a difference can leave INT.
    fn sub_overflows(self, other: Self) -> bool
        ensures { result ≡ ops.sub_overflows self other };

    // Whether a product can leave INT.
    fn mul_overflows(self, other: Self) -> bool
        ensures { result ≡ ops.mul_overflows self other };

    // What `a < b` can be for a number `a` from this side and `b` from the other.
    fn less(self, other: Self) -> Truth
        ensures { result ≡ ops.less self other };

    // What `a == b` can be.
    fn equal(self, other: Self) -> Truth
        ensures { result ≡ ops.equal self other };

    // The least set that both sides are within.
    fn join(self, other: Self) -> Self
        ensures { result ≡ ops.join self other };

    // From an old set and its join with a newer one, a set that the join is within, so large that growth soon ends.
    fn widen(self, joined: Self) -> Self
        ensures { result ≡ ops.widen self joined };

    ghost lawful: { Lawful ops };
}

// The join of the one-number spans of `numbers`; the span from 1 to 0 where there is none.
pub fn spanned<D: Domain>(numbers: &[Int]) -> D
    ensures is { result ≡ joined_spans D.ops numbers.now }
    ensures holds_each { HoldsEach D.ops result numbers.now }
    ensures least { LeastOver D.ops result numbers.now }
{
    numbers
        .iter()
        .fold(D::span(1, 0), |set, n| set.join(D::span(*n, *n)))
}
