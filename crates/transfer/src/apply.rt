// What an operator and a store make of cells.
ghost use Rattle.std.specs.Prelude.{◌≡◌};
ghost use Rattle.transfer.specs.Transfer.{OfPairs, some_pair, truths as truths_of, numbers_only, flagged, opposites as opposites_of, logical as logical_of, transferred, stored_cell, only_truth};

use cells::cell::Cell;
use domain::{Domain, Truth};
use meaning::truths::combine;
use syntax::operator::{Operator, Store};

// A cell of truths.
fn truths<D: Domain>(can_be_false: bool, can_be_true: bool) -> Cell<D>
    ensures { result ≡ truths_of D.ops can_be_false can_be_true }
{
    Cell {
        can_be_false,
        can_be_true,
        ..Cell::nothing()
    }
}

// A cell of numbers, written out: beside `..Cell::nothing()` a set would be made only to be dropped.
fn numbers_only<D: Domain>(numbers: D) -> Cell<D>
    ensures { result ≡ numbers_only D.ops numbers }
{
    Cell {
        unset: false,
        can_be_false: false,
        can_be_true: false,
        numbers,
    }
}

fn flagged_cell<D: Domain>(flags: Truth) -> Cell<D>
    ensures { result ≡ flagged D.ops flags }
{
    truths(flags.can_be_false, flags.can_be_true)
}

// The opposites of a cell's truths.
pub fn opposites<D: Domain>(cell: Cell<D>) -> Cell<D>
    ensures { result ≡ opposites_of D.ops cell }
{
    truths(cell.can_be_true, cell.can_be_false)
}

// Whether a test is passed by some pair of truths that the cells allow.
fn over_pairs<D: Domain, F: Fn(bool, bool) -> bool>(test: F, x: Cell<D>, y: Cell<D>) -> bool
    requires { F.IsAlwaysCallable test }
    ensures { OfPairs (F.post test) (some_pair D.ops x y) result }
{
    (x.can_be_false & (y.can_be_false & test(false, false)))
        | ((x.can_be_false & (y.can_be_true & test(false, true)))
            | ((x.can_be_true & (y.can_be_false & test(true, false)))
                | (x.can_be_true & (y.can_be_true & test(true, true)))))
}

fn logical<D: Domain>(operator: Operator, x: Cell<D>, y: Cell<D>) -> Cell<D>
    ensures { result ≡ logical_of D.ops operator x y }
{
    truths(
        over_pairs(|a, b| !combine(operator, a, b), x, y),
        over_pairs(|a, b| combine(operator, a, b), x, y),
    )
}

// The cell of the current result after an operator, from what is kept of it and of the operand.
pub fn transfer_cell<D: Domain>(operator: Operator, x: Cell<D>, y: Cell<D>) -> Cell<D>
    ensures { result ≡ transferred D.ops operator x y }
{
    match operator {
        Operator::Ld => y,
        Operator::Ldn => opposites(y),
        Operator::Add => numbers_only(x.numbers.add(y.numbers)),
        Operator::Sub => numbers_only(x.numbers.sub(y.numbers)),
        Operator::Mul => numbers_only(x.numbers.mul(y.numbers)),
        Operator::Div => numbers_only(x.numbers.div(y.numbers)),
        Operator::Gt => flagged_cell(y.numbers.less(x.numbers)),
        Operator::Ge => opposites(flagged_cell(x.numbers.less(y.numbers))),
        Operator::Lt => flagged_cell(x.numbers.less(y.numbers)),
        Operator::Le => opposites(flagged_cell(y.numbers.less(x.numbers))),
        Operator::Eq => flagged_cell(x.numbers.equal(y.numbers)),
        Operator::Ne => opposites(flagged_cell(x.numbers.equal(y.numbers))),
        _ => logical(operator, x, y),
    }
}

// The cell of a variable after a store of the kept current result, where `y` is what is kept of its own.
pub fn stored_cell<D: Domain>(store: Store, x: Cell<D>, y: Cell<D>) -> Cell<D>
    ensures { result ≡ stored_cell D.ops store x y }
{
    match store {
        Store::St => x,
        Store::Stn => opposites(x),
        Store::Set => truths(
            x.can_be_false && y.can_be_false,
            x.can_be_true || (x.can_be_false && y.can_be_true),
        ),
        Store::Reset => truths(
            x.can_be_true || (x.can_be_false && y.can_be_false),
            x.can_be_false && y.can_be_true,
        ),
    }
}

// The current result on a conditional way on: only the truth that takes it.
pub fn only_truth<D: Domain>(truth: bool, cell: Cell<D>) -> Cell<D>
    ensures { result ≡ only_truth D.ops truth cell }
{
    if truth {
        truths(false, cell.can_be_true)
    } else {
        truths(cell.can_be_false, false)
    }
}
