// A cell: which values a place can hold.
ghost use Rattle.std.specs.Prelude.{◌≡◌};
ghost use Rattle.cells.specs.Cells.{nothing, covers, within as cell_within, joined, widened, is_vacant, has, only, of_value, of_range, either_truth};

use crate::value::{Sort, Value};
use domain::Domain;
use numbers::Int;

// Flags for unset, FALSE and TRUE, and a set of numbers.
#[derive(Clone, Copy)]
pub struct Cell<D> {
    pub unset: bool,
    pub can_be_false: bool,
    pub can_be_true: bool,
    pub numbers: D,
}

impl<D: Domain> Cell<D> {
    // The cell that allows nothing.
    pub fn nothing() -> Cell<D>
        ensures { result ≡ nothing D.ops }
    {
        Cell::of_range(1, 0)
    }

    // The cell that allows both truths.
    pub fn either_truth() -> Cell<D>
        ensures { result ≡ either_truth D.ops }
    {
        Cell {
            can_be_false: true,
            can_be_true: true,
            ..Cell::nothing()
        }
    }

    // The cell that allows the numbers from low to high.
    pub fn of_range(low: Int, high: Int) -> Cell<D>
        ensures { result ≡ of_range D.ops low high }
    {
        Cell {
            unset: false,
            can_be_false: false,
            can_be_true: false,
            numbers: D::span(low, high),
        }
    }

    // The cell that allows one value; by name and no `From`, as the other cells are made by name.
    pub fn of_value(value: Value) -> Cell<D>
        ensures { result ≡ of_value D.ops value }
    {
        match value {
            Value::Unset => Cell {
                unset: true,
                ..Cell::nothing()
            },
            Value::Bool(b) => Cell {
                can_be_false: !b,
                can_be_true: b,
                ..Cell::nothing()
            },
            Value::Int(n) => Cell::of_range(n, n),
        }
    }

    // Whether the value is allowed.
    pub fn covers(self, value: Value) -> bool
        ensures { result ≡ covers D.ops self value }
    {
        match value {
            Value::Unset => self.unset,
            Value::Bool(false) => self.can_be_false,
            Value::Bool(true) => self.can_be_true,
            Value::Int(n) => self.numbers.contains(n),
        }
    }

    // Whether all that this cell allows, the other surely does.
    pub fn within(self, other: Cell<D>) -> bool
        ensures { result ≡ cell_within D.ops self other }
    {
        // the flags by `&` and `|`, without a branch for each: this is asked of every cell of a row
        (!self.unset | other.unset)
            & (!self.can_be_false | other.can_be_false)
            & (!self.can_be_true | other.can_be_true)
            && self.numbers.within(other.numbers)
    }

    // The least cell that both are within.
    pub fn join(self, other: Cell<D>) -> Cell<D>
        ensures { result ≡ joined D.ops self other }
    {
        Cell {
            unset: self.unset || other.unset,
            can_be_false: self.can_be_false || other.can_be_false,
            can_be_true: self.can_be_true || other.can_be_true,
            numbers: self.numbers.join(other.numbers),
        }
    }

    // The same with the numbers' growth made to end soon.
    pub fn widen(self, other: Cell<D>) -> Cell<D>
        ensures { result ≡ widened D.ops self other }
    {
        let joined = self.join(other);
        Cell {
            numbers: self.numbers.widen(joined.numbers),
            ..joined
        }
    }

    // Whether the cell surely allows nothing.
    pub fn is_vacant(self) -> bool
        ensures { result ≡ is_vacant D.ops self }
    {
        // as in `within`
        !self.unset & !self.can_be_false & !self.can_be_true && self.numbers.is_empty()
    }

    // Whether a value of the sort may be allowed.
    pub fn has(self, sort: Sort) -> bool
        ensures { result ≡ has D.ops self sort }
    {
        match sort {
            Sort::Unset => self.unset,
            Sort::Bool => self.can_be_false || self.can_be_true,
            Sort::Int => !self.numbers.is_empty(),
        }
    }

    // The cell with only those parts that are to be kept.
    pub fn only(self, unset: bool, truths: bool, numbers: bool) -> Cell<D>
        ensures { result ≡ only D.ops self unset truths numbers }
    {
        Cell {
            unset: self.unset && unset,
            can_be_false: self.can_be_false && truths,
            can_be_true: self.can_be_true && truths,
            numbers: if numbers { self.numbers } else { D::span(1, 0) },
        }
    }
}
