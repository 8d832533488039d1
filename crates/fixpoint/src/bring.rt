// Rows brought in place, by the index of each cell.
ghost use Rattle.std.specs.Prelude.{◌≡◌, ◌*◌, ◌<◌, false, List, length};
ghost use Rattle.cells.specs.declared.cell.Cell.{Cell as CellOf};
ghost use Rattle.transfer.specs.Rows.{width, row_at, start_row};
ghost use Rattle.transfer.specs.Carrying.{row_of};
ghost use Rattle.table.specs.Growing.{grown};
ghost use Rattle.fixpoint.specs.Bringing.{Gives, changed_at, restarted_at};
ghost use Rattle.fixpoint.specs.Sweeps.{brought};

use crate::sweep::Sweep;
use cells::cell::Cell;
use cells::value::Value;
use domain::Domain;
use syntax::record::Variable;
use table::growing::take_in;
use table::rows::{is_start_unreachable, start_row_cell};
use transfer::carry::{Carried, Change};
use transfer::operand::variable_at;
use transfer::rows::start_cell;

// The cell at an index of a row that has a new current result and another cell for a variable.
fn changed_at<D: Domain>(
    cr: Cell<D>,
    variable: usize,
    cell: Cell<D>,
    i: usize,
    own: Cell<D>,
) -> Cell<D>
    ensures { result ≡ changed_at D.ops cr variable cell i own }
{
    if i == 0 {
        cr
    } else if i - 1 == variable {
        cell
    } else {
        own
    }
}

// The cell at an index of the row that a return leaves.
fn restarted_at<D: Domain>(variables: &[Variable], i: usize, own: Cell<D>) -> Cell<D>
    ensures { result ≡ restarted_at D.ops variables.now i own }
{
    if i == 0 {
        Cell::of_value(Value::Unset)
    } else {
        start_cell(variable_at(variables, i - 1), own)
    }
}

impl<'p> Sweep<'p> {
    // Brings a row to the row of a statement. Each cell is given by its index and the cell there in the row of another, which is read before the cell at that index is written: so a row can also come to itself.
    fn bring<D: Domain, G: Fn(usize, Cell<D>) -> Cell<D>>(
        &self,
        cells: &mut [Cell<D>],
        from: usize,
        to: usize,
        given: G,
    ) -> bool
        requires callable { G.IsAlwaysCallable given }
        requires sized { length cells.old ≡ length self.now.statements.now * width self.now.variables.now }
        requires inside { (from < length self.now.statements.now) × (to < length self.now.statements.now) }
        ensures { (row : List (CellOf D)) → length row ≡ width self.now.variables.now → Gives D.ops (λ i own cell. G.post given i own cell) (row_at (width self.now.variables.now) cells.old from) row → grown D.ops self.now.widening cells.old false (to * width self.now.variables.now) row ≡ record { cells = cells.new; changed = result } }
    {
        let width = self.variables.len() + 1;
        let source = from * width;
        let target = to * width;
        let mut changed = false;
        // by index: both rows lie in the same cells, and can be one row
        for i in 0..width {
            let cell = given(i, cells[source + i]);
            changed |= take_in(&mut cells[target + i], cell, self.widening);
        }
        changed
    }

    // Brings a row that was carried from one statement to another.
    pub(crate) fn bring_carried<D: Domain>(
        &self,
        cells: &mut [Cell<D>],
        from: usize,
        to: usize,
        carried: Carried<D>,
    ) -> bool
        requires sized { length cells.old ≡ length self.now.statements.now * width self.now.variables.now }
        requires inside { (from < length self.now.statements.now) × (to < length self.now.statements.now) }
        ensures { grown D.ops self.now.widening cells.old false (to * width self.now.variables.now) (row_of D.ops self.now.variables.now (row_at (width self.now.variables.now) cells.old from) carried) ≡ record { cells = cells.new; changed = result } }
    {
        let Carried { cr, change } = carried;
        let variables = self.variables;
        match change {
            Change::Nothing => self.bring(cells, from, to, |i, own| if i == 0 { cr } else { own }),
            Change::Variable(variable, cell) => {
                self.bring(
                    cells,
                    from,
                    to,
                    |i, own| changed_at(cr, variable, cell, i, own),
                )
            }
            Change::Inputs => self.bring(cells, from, to, |i, own| restarted_at(variables, i, own)),
        }
    }

    // Brings the start row to row 0, unless it is unreachable.
    pub(crate) fn bring_start<D: Domain>(&self, cells: &mut [Cell<D>]) -> bool
        requires sized { length cells.old ≡ length self.now.statements.now * width self.now.variables.now }
        requires inside { 0 < length self.now.statements.now }
        ensures { brought D.ops self.now.widening self.now.variables.now 0 (start_row D.ops self.now.variables.now) cells.old ≡ record { cells = cells.new; changed = result } }
    {
        let variables = self.variables;
        if is_start_unreachable::<D>(variables) {
            return false;
        }
        self.bring(cells, 0, 0, |i, _own| start_row_cell(variables, i))
    }
}
