// The operand of a statement, and what is kept of it and of the current result.
ghost use Rattle.std.specs.Prelude.{◌≡◌, ◌||◌, ◌+◌, slice_index_or};
ghost use Rattle.cells.specs.Cells.{nothing, only};
ghost use Rattle.syntax.specs.Records.{no_variable};
ghost use Rattle.transfer.specs.Transfer.{operand_in, OfSorts, left_kept, right_kept, left_of, right_of};

use crate::rows::cell_at;
use cells::cell::Cell;
use cells::value::Sort;
use domain::Domain;
use meaning::accepts::accepts;
use meaning::source::{Source, operand_source};
use syntax::record::{Operation, Variable};

// The variable at an index, or a blank one.
pub fn variable_at(variables: &[Variable], index: usize) -> Variable
    ensures { result ≡ slice_index_or variables.now index no_variable }
{
    variables.get(index).copied().unwrap_or(Variable::BLANK)
}

// The cell of a variable, which stands after the current result's.
fn variable_cell<D: Domain>(row: &[Cell<D>], index: usize) -> Cell<D>
    ensures { result ≡ slice_index_or row.now (index + 1) (nothing D.ops) }
{
    match index.checked_add(1) {
        Some(place) => cell_at(row, place),
        None => Cell::nothing(),
    }
}

// The operand of an operation; unset where it has none.
pub fn operand<D: Domain>(variables: &[Variable], row: &[Cell<D>], operation: Operation) -> Cell<D>
    ensures { result ≡ operand_in D.ops variables.now row.now operation }
{
    match operand_source(variables, operation) {
        Source::Value(value) => Cell::of_value(value),
        Source::Variable(index) => variable_cell(row, index),
    }
}

// Whether one of the three sorts passes a test.
pub(crate) fn any_sort<F: Fn(Sort) -> bool>(test: F) -> bool
    requires { F.IsAlwaysCallable test }
    ensures { OfSorts (F.post test) (λ u t n. u || (t || n)) result }
{
    test(Sort::Unset) | (test(Sort::Bool) | test(Sort::Int))
}

// Whether a current result of the sort is accepted with some part of the operand.
// One function for both sides would be told the order of what is accepted: no plainer.
fn keeps_left<D: Domain>(operation: Operation, right: Cell<D>, sort: Sort) -> bool
    ensures { result ≡ left_kept D.ops operation right sort }
{
    any_sort(|other| right.has(other) && accepts(operation, sort, other))
}

// Whether an operand of the sort is accepted with some part of the current result.
fn keeps_right<D: Domain>(operation: Operation, left: Cell<D>, sort: Sort) -> bool
    ensures { result ≡ right_kept D.ops operation left sort }
{
    any_sort(|other| left.has(other) && accepts(operation, other, sort))
}

// The parts of a cell whose sorts are kept.
fn kept<D: Domain, F: Fn(Sort) -> bool>(cell: Cell<D>, keeps: F) -> Cell<D>
    requires { F.IsAlwaysCallable keeps }
    ensures { OfSorts (F.post keeps) (only D.ops cell) result }
{
    cell.only(keeps(Sort::Unset), keeps(Sort::Bool), keeps(Sort::Int))
}

// What is kept of the current result of a row: the parts that are accepted with its operand.
pub fn left<D: Domain>(variables: &[Variable], row: &[Cell<D>], operation: Operation) -> Cell<D>
    ensures { result ≡ left_of D.ops variables.now row.now operation }
{
    let left = cell_at(row, 0);
    let right = operand(variables, row, operation);
    kept(left, |sort| keeps_left(operation, right, sort))
}

// What is kept of the operand of a row: the parts that are accepted with its current result.
pub fn right<D: Domain>(variables: &[Variable], row: &[Cell<D>], operation: Operation) -> Cell<D>
    ensures { result ≡ right_of D.ops variables.now row.now operation }
{
    let left = cell_at(row, 0);
    let right = operand(variables, row, operation);
    kept(right, |sort| keeps_right(operation, left, sort))
}
