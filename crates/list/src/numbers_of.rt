// Numbers in a slice.
ghost use Rattle.std.specs.Prelude.{◌≡◌, ◌<◌, ◌≤◌, length};
ghost use Rattle.list.specs.Insertion.{place, stands_at, shifted_in};
ghost use Rattle.list.specs.Numbers.{member, all_in, ascending};

use numbers::Int;

// Whether the numbers ascend strictly.
pub(crate) fn ascends(numbers: &[Int]) -> bool
    ensures { result ≡ ascending numbers.now }
{
    numbers.is_sorted_by(|a, b| a < b)
}

// Whether `n` is among the numbers; `any` ends where it is found, and std's `contains` goes through INTs by groups.
pub(crate) fn has(numbers: &[Int], n: Int) -> bool
    ensures { result ≡ member n numbers.now }
{
    numbers.iter().any(|x| *x == n)
}

// Whether every number is among the others.
pub(crate) fn has_all(others: &[Int], numbers: &[Int]) -> bool
    ensures { result ≡ all_in numbers.now others.now }
{
    numbers.iter().all(|n| has(others, *n))
}

// How many numbers stand at the front that are below `n`.
pub(crate) fn place_of(numbers: &[Int], n: Int) -> usize
    ensures is { result ≡ place numbers.now n }
    ensures bound { result ≤ length numbers.now }
{
    numbers.iter().take_while(|x| **x < n).count()
}

// Whether `n` stands at the place `at`.
pub(crate) fn stands_at(numbers: &[Int], at: usize, n: Int) -> bool
    ensures { result ≡ stands_at numbers.now at n }
{
    numbers.get(at) == Some(&n)
}

// `n` put in at the place `at`, the numbers behind it one place on, without the last.
pub(crate) fn shifted(numbers: [Int; 8], at: usize, n: Int) -> [Int; 8]
    requires { at < 8 }
    ensures { result ≡ shifted_in numbers at n }
{
    let mut numbers = numbers;
    numbers.copy_within(at..7, at + 1);
    numbers[at] = n;
    numbers
}
