// What a table and its program have at a number: a row, a statement, a cell of the start row.
ghost use Rattle.std.specs.Prelude.{◌≡◌, length, slice_index_or};
ghost use Rattle.cells.specs.Cells.{nothing};
ghost use Rattle.transfer.specs.Rows.{row_at, start_row, is_unreachable};
ghost use Rattle.table.specs.Tables.{operation_at};

use cells::cell::Cell;
use cells::value::Value;
use domain::Domain;
use syntax::record::{Operation, Statement, Variable};
use transfer::rows::initial_cell;

// The row before a statement, as far as the cells reach.
pub fn row_at<D: Domain>(cells: &[Cell<D>], width: usize, index: usize) -> &[Cell<D>]
    ensures { result.now ≡ row_at width cells.now index }
{
    let start = index.saturating_mul(width).min(cells.len());
    let rest = &cells[start..];
    &rest[..width.min(rest.len())]
}

// The operation of a statement; a return where there is none.
pub fn operation_at(statements: &[Statement], index: usize) -> Operation
    ensures { result ≡ operation_at statements.now index }
{
    statements
        .get(index)
        .map_or(Operation::Return, |statement| statement.operation())
}

// The cell at an index of the start row, or one that allows nothing.
pub fn start_row_cell<D: Domain>(variables: &[Variable], index: usize) -> Cell<D>
    ensures { result ≡ slice_index_or (start_row D.ops variables.now) index (nothing D.ops) }
{
    if index == 0 {
        return Cell::of_value(Value::Unset);
    }
    match variables.get(index - 1) {
        Some(variable) => initial_cell(*variable),
        None => Cell::nothing(),
    }
}

// Whether the start row has a vacant cell; its current result is unset.
pub fn is_start_unreachable<D: Domain>(variables: &[Variable]) -> bool
    ensures { result ≡ is_unreachable D.Domain.ops (start_row D.Domain.ops variables.now) }
{
    variables
        .iter()
        .map(|variable| initial_cell::<D>(*variable))
        .any(|cell| cell.is_vacant())
}
