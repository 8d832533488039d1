// A row carried along a statement, kept as what is new in it. The variables and the row are handed on as they are: a struct of the two would be taken apart again at each call from above.
ghost use Rattle.std.specs.Prelude.{◌≡◌, ◌+◌, ◌<◌, drop, slice_index_or, slice_set};
ghost use Rattle.cells.specs.Cells.{nothing};
ghost use Rattle.transfer.specs.Rows.{is_unreachable, restart_cells};
ghost use Rattle.transfer.specs.Transfer.{with_result, with_variable, return_row, carried as carried_row, target_of};
ghost use Rattle.transfer.specs.Carrying.{mapped, row_of, resulting as resulting_in, jump_change, change_by, target_held};

use crate::apply::{only_truth, opposites, stored_cell, transfer_cell};
use crate::operand::{left, right};
use crate::rows::{cell_at, initial_cell, is_unreachable, start_cell};
use cells::cell::Cell;
use cells::value::Value;
use domain::Domain;
use meaning::edge::Edge;
use syntax::operator::Jump;
use syntax::record::{Operation, Variable};

// What is new in a carried row beside the current result.
#[derive(Clone, Copy)]
pub enum Change<D> {
    Nothing,
    // a variable, by its index, and its new cell
    Variable(usize, Cell<D>),
    // every input is given a value anew
    Inputs,
}

#[derive(Clone, Copy)]
pub struct Carried<D> {
    pub cr: Cell<D>,
    pub change: Change<D>,
}

fn resulting<D: Domain>(cr: Cell<D>) -> Carried<D>
    ensures { result ≡ resulting_in D.ops cr }
{
    Carried {
        cr,
        change: Change::Nothing,
    }
}

// A jump leaves the current result only the truth that takes the way on.
fn jump_change<D: Domain>(jump: Jump, edge: Edge, x: Cell<D>) -> Option<Carried<D>>
    ensures { result ≡ jump_change D.ops jump edge x }
{
    match (jump, edge) {
        (Jump::Jmp, Edge::Fall) => None,
        (Jump::Jmp, Edge::Jump) => Some(resulting(x)),
        (Jump::Jmpc, Edge::Jump) | (Jump::Jmpcn, Edge::Fall) => Some(resulting(only_truth(
            true, x,
        ))),
        (Jump::Jmpc, Edge::Fall) | (Jump::Jmpcn, Edge::Jump) => Some(resulting(only_truth(
            false, x,
        ))),
    }
}

// What is new on a way on, from what is kept of the current result and the operand.
fn change_by<D: Domain>(
    x: Cell<D>,
    y: Cell<D>,
    operation: Operation,
    edge: Edge,
) -> Option<Carried<D>>
    ensures { result ≡ change_by D.ops x y operation edge }
{
    match (operation, edge) {
        (Operation::Jump(jump, _), _) => jump_change(jump, edge, x),
        (Operation::Return, Edge::Jump) => Some(Carried {
            cr: Cell::of_value(Value::Unset),
            change: Change::Inputs,
        }),
        (Operation::Return, Edge::Fall) | (_, Edge::Jump) => None,
        (Operation::Not, Edge::Fall) => Some(resulting(opposites(x))),
        (Operation::Label(_), Edge::Fall) => Some(resulting(x)),
        (Operation::Apply(operator, _), Edge::Fall) => Some(resulting(transfer_cell(
            operator, x, y,
        ))),
        (Operation::Store(store, index), Edge::Fall) => Some(Carried {
            cr: x,
            change: Change::Variable(index, stored_cell(store, x, y)),
        }),
    }
}

// The row carried along a statement on one way on, where one is.
pub fn carry<D: Domain>(
    variables: &[Variable],
    row: &[Cell<D>],
    operation: Operation,
    edge: Edge,
) -> Option<Carried<D>>
    ensures { mapped (row_of D.ops variables.now row.now) result ≡ carried_row D.ops variables.now row.now operation edge }
{
    let x = left(variables, row, operation);
    let y = right(variables, row, operation);
    if x.is_vacant() || y.is_vacant() {
        return None;
    }
    change_by(x, y, operation, edge)
}

// The cell at an index of a row with another current result.
fn result_cell<D: Domain>(row: &[Cell<D>], cr: Cell<D>, index: usize) -> Cell<D>
    ensures { result ≡ slice_index_or (with_result D.ops row.now cr) index (nothing D.ops) }
{
    if index == 0 && !row.is_empty() {
        cr
    } else {
        cell_at(row, index)
    }
}

// The cell at an index of a row with another current result and another variable.
fn changed_cell<D: Domain>(
    row: &[Cell<D>],
    cr: Cell<D>,
    variable: usize,
    cell: Cell<D>,
    index: usize,
) -> Cell<D>
    ensures { result ≡ slice_index_or (with_variable D.ops row.now cr variable cell) index (nothing D.ops) }
{
    if index.checked_sub(1) == Some(variable) && index < row.len() {
        cell
    } else {
        result_cell(row, cr, index)
    }
}

// The cell of a variable when a scan starts anew.
fn restart_cell<D: Domain>(variables: &[Variable], row: &[Cell<D>], index: usize) -> Cell<D>
    ensures { result ≡ slice_index_or (restart_cells D.ops variables.now (drop 1 row.now)) index (nothing D.ops) }
{
    let Some(&variable) = variables.get(index) else {
        return Cell::nothing();
    };
    match row.get(index + 1) {
        Some(&own) => start_cell(variable, own),
        None => initial_cell(variable),
    }
}

// The cell at an index of the row that a return leaves.
fn return_cell<D: Domain>(variables: &[Variable], row: &[Cell<D>], index: usize) -> Cell<D>
    ensures { result ≡ slice_index_or (return_row D.ops variables.now row.now) index (nothing D.ops) }
{
    if index == 0 {
        Cell::of_value(Value::Unset)
    } else {
        restart_cell(variables, row, index - 1)
    }
}

// The cell at an index of a carried row.
#[inline]
pub fn carried_cell<D: Domain>(
    carried: Carried<D>,
    variables: &[Variable],
    row: &[Cell<D>],
    index: usize,
) -> Cell<D>
    ensures { result ≡ slice_index_or (row_of D.ops variables.now row.now carried) index (nothing D.ops) }
{
    let Carried { cr, change } = carried;
    match change {
        Change::Nothing => result_cell(row, cr, index),
        Change::Variable(variable, cell) => changed_cell(row, cr, variable, cell, index),
        Change::Inputs => return_cell(variables, row, index),
    }
}

// Whether some cell is vacant when the one at an index is changed; an index behind them changes none.
fn is_changed_unreachable<D: Domain>(cells: &[Cell<D>], index: usize, changed: Cell<D>) -> bool
    ensures { result ≡ is_unreachable D.ops (slice_set cells.now index changed) }
{
    if index < cells.len() {
        is_unreachable(&cells[..index])
            || changed.is_vacant()
            || is_unreachable(&cells[index + 1..])
    } else {
        is_unreachable(cells)
    }
}

// Whether the row that a return leaves has a vacant cell; its current result is unset.
fn is_return_unreachable<D: Domain>(variables: &[Variable], row: &[Cell<D>]) -> bool
    ensures { result ≡ is_unreachable D.ops (return_row D.ops variables.now row.now) }
{
    (0..variables.len()).any(|index| restart_cell(variables, row, index).is_vacant())
}

// Whether a carried row has a vacant cell.
pub fn is_carried_unreachable<D: Domain>(
    carried: Carried<D>,
    variables: &[Variable],
    row: &[Cell<D>],
) -> bool
    ensures { result ≡ is_unreachable D.ops (row_of D.ops variables.now row.now carried) }
{
    let Carried { cr, change } = carried;
    // the cells are looked at where they lie: a copy of each, by its index, took two to six times as many instructions for lists
    match (change, row) {
        (Change::Inputs, _) => is_return_unreachable(variables, row),
        (_, []) => false,
        (Change::Nothing, [_, own @ ..]) => cr.is_vacant() || is_unreachable(own),
        (Change::Variable(variable, cell), [_, own @ ..]) => {
            cr.is_vacant() || is_changed_unreachable(own, variable, cell)
        }
    }
}

// The statement that a way on leads to; the last number of all has no next.
pub fn target(number: usize, operation: Operation, edge: Edge) -> usize
    ensures held { result ≡ target_held number operation edge }
    ensures is { number < 18446744073709551615 → result ≡ target_of number operation edge }
{
    match edge {
        Edge::Fall => number.saturating_add(1),
        Edge::Jump => match operation {
            Operation::Jump(_, target) => target.statement,
            _ => 0,
        },
    }
}
