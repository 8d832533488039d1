// Rows of cells: one for the current result and one for each variable.
ghost use Rattle.std.specs.Prelude.{◌≡◌, slice_index_or};
ghost use Rattle.cells.specs.Cells.{nothing};
ghost use Rattle.transfer.specs.Rows.{is_unreachable, given_to, start_cell, initial_cell};

use cells::cell::Cell;
use cells::value::Value;
use domain::Domain;
use syntax::record::{Class, Constant, Variable};

// The cell at an index, or one that allows nothing.
pub fn cell_at<D: Domain>(row: &[Cell<D>], index: usize) -> Cell<D>
    ensures { result ≡ slice_index_or row.now index (nothing D.ops) }
{
    row.get(index).copied().unwrap_or_else(|| Cell::nothing())
}

// Whether some cell of the row is vacant.
pub fn is_unreachable<D: Domain>(row: &[Cell<D>]) -> bool
    ensures { result ≡ is_unreachable D.ops row.now }
{
    row.iter().any(|cell| cell.is_vacant())
}

// What an input can be given: a BOOL either truth, an INT its range.
fn given<D: Domain>(variable: Variable) -> Cell<D>
    ensures { result ≡ given_to D.ops variable.declaration.initial variable }
{
    match variable.declaration().initial {
        Constant::Bool(_) => Cell::either_truth(),
        Constant::Int(_) => Cell::of_range(variable.range().low, variable.range().high),
    }
}

// The cell of a variable when a scan starts: an input is given a value, the others keep their own.
pub fn start_cell<D: Domain>(variable: Variable, own: Cell<D>) -> Cell<D>
    ensures { result ≡ start_cell D.ops variable.declaration.class variable own }
{
    match variable.declaration().class {
        Class::Input => given(variable),
        _ => own,
    }
}

// The cell of a variable before the first scan.
pub fn initial_cell<D: Domain>(variable: Variable) -> Cell<D>
    ensures { result ≡ initial_cell D.ops variable }
{
    start_cell(
        variable,
        Cell::of_value(Value::from(variable.declaration().initial)),
    )
}
