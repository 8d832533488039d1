// What could stop a statement.
ghost use Rattle.std.specs.Prelude.{◌≡◌, not, ◌&&◌};
ghost use Rattle.cells.specs.Cells.{has};
ghost use Rattle.meaning.specs.Meaning.{accepted};
ghost use Rattle.transfer.specs.Transfer.{any_sort};
ghost use Rattle.transfer.specs.Marks.{number_of, has_cause, kind_mark, zero_mark, overflow_mark, marks_of};

use crate::operand::{any_sort, operand};
use crate::rows::{cell_at, is_unreachable};
use cells::cell::Cell;
use cells::value::Sort;
use domain::Domain;
use meaning::accepts::accepts;
use meaning::compute::Cause;
use numbers::Int;
use syntax::operator::Operator;
use syntax::record::{Operation, Variable};

// The marks of a row before its statement.
#[derive(Clone, Copy)]
pub struct Marks {
    pub overflow: bool,
    pub zero_divisor: bool,
    pub kind: bool,
    pub unreachable: bool,
}

impl Marks {
    // No mark at all.
    pub const NONE: Marks = Marks {
        overflow: false,
        zero_divisor: false,
        kind: false,
        unreachable: false,
    };

    // The marks as a number: N 8, K 4, Z 2, O 1.
    pub fn number(self) -> u8
        ensures { result ≡ number_of self }
    {
        8 * u8::from(self.unreachable)
            + 4 * u8::from(self.kind)
            + 2 * u8::from(self.zero_divisor)
            + u8::from(self.overflow)
    }

    // Whether the mark of a cause is among them.
    pub fn has(self, cause: Cause) -> bool
        ensures { result ≡ has_cause self cause }
    {
        match cause {
            Cause::Kind => self.kind,
            Cause::ZeroDivisor => self.zero_divisor,
            Cause::Overflow => self.overflow,
        }
    }
}

// Whether the operand has a part that is not accepted with a current result of the sort, where the current result has that part.
fn refuses<D: Domain>(operation: Operation, left: Cell<D>, right: Cell<D>, sort: Sort) -> bool
    ensures { result ≡ any_sort (λ b. has D.ops left sort && (has D.ops right b && not (accepted operation sort b))) }
{
    // the current result first: for a sort that it has not, the operand is not looked at
    left.has(sort) && any_sort(|other| right.has(other) && !accepts(operation, sort, other))
}

// K: whether the current result and the operand allow parts that are not accepted together.
fn kind_mark<D: Domain>(operation: Operation, left: Cell<D>, right: Cell<D>) -> bool
    ensures { result ≡ kind_mark D.ops operation left right }
{
    any_sort(|sort| refuses(operation, left, right, sort))
}

// Z: whether a division by 0 is allowed.
fn zero_mark<D: Domain>(operation: Operation, left: Cell<D>, right: Cell<D>) -> bool
    ensures { result ≡ zero_mark D.ops operation left right }
{
    match operation {
        Operation::Apply(Operator::Div, _) => !left.numbers.is_empty() && right.numbers.contains(0),
        _ => false,
    }
}

// O: whether a result outside INT is allowed.
fn overflow_mark<D: Domain>(operation: Operation, left: Cell<D>, right: Cell<D>) -> bool
    ensures { result ≡ overflow_mark D.ops operation left right }
{
    let Operation::Apply(operator, _) = operation else {
        return false;
    };
    match operator {
        Operator::Add => left.numbers.add_overflows(right.numbers),
        Operator::Sub => left.numbers.sub_overflows(right.numbers),
        Operator::Mul => left.numbers.mul_overflows(right.numbers),
        Operator::Div => left.numbers.contains(Int::MIN) && right.numbers.contains(-1),
        _ => false,
    }
}

// The marks of a row before a statement, by its cells as they are; N alone where the row is unreachable.
pub fn marks_of<D: Domain>(variables: &[Variable], row: &[Cell<D>], operation: Operation) -> Marks
    ensures { result ≡ marks_of D.ops variables.now row.now operation }
{
    if is_unreachable(row) {
        Marks {
            unreachable: true,
            ..Marks::NONE
        }
    } else {
        let left = cell_at(row, 0);
        let right = operand(variables, row, operation);
        Marks {
            overflow: overflow_mark(operation, left, right),
            zero_divisor: zero_mark(operation, left, right),
            kind: kind_mark(operation, left, right),
            unreachable: false,
        }
    }
}
