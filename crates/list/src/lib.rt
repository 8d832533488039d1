// The list domain: up to eight INTs, or everything.
#![tactic(auto)]

ghost use Rattle.std.specs.Prelude.{◌≡◌, Bool, ◌++◌, ℤ, fold, Option};
ghost use Rattle.list.specs.Insertion.{put_in};
ghost use Rattle.list.specs.NumberList.{is_everything, listed, smallest, is_empty, is_within, results, some, list_ops};
ghost use Rattle.list.specs.Numbers.{row, pairs, some_with, some_pair, counted};
ghost use Rattle.domain.specs.Computed.{Computes};
ghost use Rattle.list.specs.Meaning;

mod numbers_of;
mod operations;

use domain::{Domain, Truth};
use numbers::Int;
use numbers_of::{ascends, has, has_all, place_of, shifted, stands_at};
use operations::{difference, product, quotient, sum};

// All INTs, or the first `count` of the numbers, which ascend strictly. A record out of that form contains nothing.
#[derive(Clone, Copy, PartialEq, Eq, Debug)]
pub enum NumberList {
    Everything,
    // A count beside an array, and no Vec: rows of sets are copied in sweeps, which have no heap.
    Numbers { count: u8, numbers: [Int; 8] },
}

impl NumberList {
    // The set without a number.
    pub const NONE: NumberList = NumberList::Numbers {
        count: 0,
        numbers: [0; 8],
    };

    // Whether the set is that of all INTs.
    fn is_everything(&self) -> bool
        ensures { result ≡ is_everything self.now }
    {
        matches!(self, NumberList::Everything)
    }

    // The numbers of a record that lists them in form, else none.
    pub fn listed(&self) -> &[Int]
        ensures { result.now ≡ listed self.now }
    {
        match self {
            NumberList::Numbers { count, numbers }
                if *count <= 8 && ascends(&numbers[..*count as usize]) =>
                &numbers[..*count as usize],
            _ => &[],
        }
    }

    // The set with `n` put in; everything where that is a ninth number.
    fn put(self, n: Int) -> NumberList
        ensures { result ≡ put_in self n }
    {
        let NumberList::Numbers { count, numbers } = self else {
            return NumberList::Everything;
        };
        if count > 8 {
            return NumberList::Everything;
        }
        let listed = &numbers[..count as usize];
        let place = place_of(listed, n);
        if stands_at(listed, place, n) {
            return self;
        }
        if count == 8 {
            return NumberList::Everything;
        }
        NumberList::Numbers {
            count: count + 1,
            numbers: shifted(numbers, place, n),
        }
    }

    // The set with all the numbers put in.
    fn put_all(self, numbers: &[Int]) -> NumberList
        ensures { result ≡ fold put_in self numbers.now }
    {
        numbers.iter().fold(self, |set, n| set.put(*n))
    }

    // The set with the results of `a` and each of the numbers put in.
    fn put_row<F: Fn(Int, Int) -> Option<Int> + Copy>(
        self,
        operation: F,
        a: Int,
        numbers: &[Int],
    ) -> NumberList
        requires { F.IsAlwaysCallable operation }
        ensures { (op : ℤ → ℤ → Option ℤ) → Computes F.Fn op operation → result ≡ fold put_in self (row op a numbers.now) }
    {
        let mut set = self;
        for b in numbers {
            if let Some(n) = operation(a, *b) {
                set = set.put(n);
            }
        }
        set
    }

    // The set with the results of all pairs put in.
    fn put_pairs<F: Fn(Int, Int) -> Option<Int> + Copy>(
        self,
        operation: F,
        xs: &[Int],
        ys: &[Int],
    ) -> NumberList
        requires { F.IsAlwaysCallable operation }
        ensures { (op : ℤ → ℤ → Option ℤ) → Computes F.Fn op operation → result ≡ fold put_in self (pairs op xs.now ys.now) }
    {
        let mut set = self;
        for a in xs {
            set = set.put_row(operation, *a, ys);
        }
        set
    }
}

// Whether `a` passes the test with some of the numbers.
fn some_in<F: Fn(Int, Int) -> bool + Copy>(test: F, a: Int, numbers: &[Int]) -> bool
    requires { F.IsAlwaysCallable test }
    ensures { (t : ℤ → ℤ → Bool) → Computes F.Fn t test → result ≡ some_with t a numbers.now }
{
    numbers.iter().any(|b| test(a, *b))
}

// Whether some pair passes the test.
fn some_pair<F: Fn(Int, Int) -> bool + Copy>(test: F, xs: &[Int], ys: &[Int]) -> bool
    requires { F.IsAlwaysCallable test }
    ensures { (t : ℤ → ℤ → Bool) → Computes F.Fn t test → result ≡ some_pair t xs.now ys.now }
{
    xs.iter().any(|a| some_in(test, *a, ys))
}

// The smallest set over the first numbers from `low` on that are not above `high`.
// By recursion: of a chain over `(low..=high).take(8)` the numbers that it gives were not proved.
fn count_up(set: NumberList, places: u8, low: Int, high: Int) -> NumberList
    ensures { result ≡ fold put_in set (counted places low high) }
{
    if places == 0 || low > high {
        return set;
    }
    let set = set.put(low);
    if low == high {
        return set;
    }
    count_up(set, places - 1, low + 1, high)
}

// The smallest set over two slices.
fn union(xs: &[Int], ys: &[Int]) -> NumberList
    ensures { result ≡ smallest (xs.now ++ ys.now) }
{
    NumberList::NONE.put_all(xs).put_all(ys)
}

// The smallest set over the results of all pairs.
fn all_results<F: Fn(Int, Int) -> Option<Int> + Copy>(
    operation: F,
    xs: &[Int],
    ys: &[Int],
) -> NumberList
    requires { F.IsAlwaysCallable operation }
    ensures { (op : ℤ → ℤ → Option ℤ) → Computes F.Fn op operation → result ≡ smallest (pairs op xs.now ys.now) }
{
    NumberList::NONE.put_pairs(operation, xs, ys)
}

// Whether the record lists no number.
fn lists_none(x: &NumberList) -> bool
    ensures { result ≡ is_empty x.now }
{
    !x.is_everything() && x.listed().is_empty()
}

// Whether every number of `x` is in `y`.
fn lies_within(x: &NumberList, y: &NumberList) -> bool
    ensures { result ≡ is_within x.now y.now }
{
    y.is_everything() || !x.is_everything() && has_all(y.listed(), x.listed())
}

// The results of an operation.
fn results<F: Fn(Int, Int) -> Option<Int> + Copy>(
    operation: F,
    x: NumberList,
    y: NumberList,
) -> NumberList
    requires { F.IsAlwaysCallable operation }
    ensures { (op : ℤ → ℤ → Option ℤ) → Computes F.Fn op operation → result ≡ results op x y }
{
    if lists_none(&x) || lists_none(&y) {
        return NumberList::NONE;
    }
    if x.is_everything() || y.is_everything() {
        return NumberList::Everything;
    }
    all_results(operation, x.listed(), y.listed())
}

// Whether some pair passes a test.
fn some<F: Fn(Int, Int) -> bool + Copy>(test: F, x: NumberList, y: NumberList) -> bool
    requires { F.IsAlwaysCallable test }
    ensures { (t : ℤ → ℤ → Bool) → Computes F.Fn t test → result ≡ some t x y }
{
    if lists_none(&x) || lists_none(&y) {
        return false;
    }
    if x.is_everything() || y.is_everything() {
        return true;
    }
    some_pair(test, x.listed(), y.listed())
}

// The smallest set over the INTs from `low` to `high`.
fn spanned(low: Int, high: Int) -> NumberList
    ensures { result ≡ smallest (counted 8 low high) }
{
    count_up(NumberList::NONE, 8, low, high)
}

impl Domain for NumberList {
    ghost ops = { list_ops };

    ghost lawful = { Meaning.lawful };

    fn span(low: Int, high: Int) -> NumberList {
        if low as i32 + 7 < high as i32 {
            return NumberList::Everything;
        }
        spanned(low, high)
    }

    fn contains(self, n: Int) -> bool {
        self.is_everything() || has(self.listed(), n)
    }

    fn within(self, other: NumberList) -> bool {
        lies_within(&self, &other)
    }

    fn is_empty(self) -> bool {
        lists_none(&self)
    }

    fn add(self, other: NumberList) -> NumberList {
        results(sum, self, other)
    }

    fn sub(self, other: NumberList) -> NumberList {
        results(difference, self, other)
    }

    fn mul(self, other: NumberList) -> NumberList {
        results(product, self, other)
    }

    fn div(self, other: NumberList) -> NumberList {
        results(quotient, self, other)
    }

    fn add_overflows(self, other: NumberList) -> bool {
        some(|a, b| sum(a, b).is_none(), self, other)
    }

    fn sub_overflows(self, other: NumberList) -> bool {
        some(|a, b| difference(a, b).is_none(), self, other)
    }

    fn mul_overflows(self, other: NumberList) -> bool {
        some(|a, b| product(a, b).is_none(), self, other)
    }

    fn less(self, other: NumberList) -> Truth {
        Truth {
            can_be_true: some(|a, b| a < b, self, other),
            can_be_false: some(|a, b| a >= b, self, other),
        }
    }

    fn equal(self, other: NumberList) -> Truth {
        Truth {
            can_be_true: some(|a, b| a == b, self, other),
            can_be_false: some(|a, b| a != b, self, other),
        }
    }

    fn join(self, other: NumberList) -> NumberList {
        if self.is_everything() || other.is_everything() {
            return NumberList::Everything;
        }
        union(self.listed(), other.listed())
    }

    fn widen(self, joined: NumberList) -> NumberList {
        if self.is_empty() || joined.within(self) {
            return joined;
        }
        NumberList::Everything
    }
}
