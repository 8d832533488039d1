// One sweep over a table: the start row, and then each row along its ways on.
ghost use Rattle.std.specs.Prelude.{◌≡◌, ◌*◌, ◌<◌, false, length};
ghost use Rattle.reading.specs.Formed.{Formed};
ghost use Rattle.transfer.specs.Rows.{width, row_at, is_unreachable};
ghost use Rattle.table.specs.Tables.{operation_at};
ghost use Rattle.fixpoint.specs.Sweeps.{widens as widens_at, brought_on, brought_from, swept_with};

use crate::changes::is_new_unreachable;
use cells::cell::Cell;
use domain::Domain;
use meaning::edge::Edge;
use syntax::record::{Operation, Statement, Variable};
use table::rows::{operation_at, row_at};
use transfer::carry::{carry, target};
use transfer::rows::is_unreachable;

// Whether a sweep, by its number from 1, widens.
pub fn widens(sweep: u16) -> bool
    ensures { result ≡ widens_at sweep }
{
    sweep >= 9
}

// One sweep over a program's table, that joins or widens.
// Its methods are lent the cells: a struct that held them would have each method promise that the program is left as it was.
#[derive(Drop)]
pub(crate) struct Sweep<'p> {
    pub(crate) variables: &'p [Variable],
    pub(crate) statements: &'p [Statement],
    pub(crate) widening: bool,
    ghost formed: { Formed variables.now statements.now },
}

impl<'p> Sweep<'p> {
    // Brings the row of a statement, one that can be reached, carried on one way on, to its target.
    fn bring_on<D: Domain>(
        &self,
        cells: &mut [Cell<D>],
        number: usize,
        operation: Operation,
        edge: Edge,
    ) -> bool
        requires sized { length cells.old ≡ length self.now.statements.now * width self.now.variables.now }
        requires inside { number < length self.now.statements.now }
        requires read { operation ≡ operation_at self.now.statements.now number }
        requires reached { is_unreachable D.ops (row_at (width self.now.variables.now) cells.old number) ≡ false }
        ensures { brought_on D.ops self.now.widening self.now.variables.now number operation edge cells.old ≡ record { cells = cells.new; changed = result } }
    {
        let row = row_at(cells, self.variables.len() + 1, number);
        match carry(self.variables, row, operation, edge) {
            Some(carried) => {
                if is_new_unreachable(carried, self.variables, row) {
                    false
                } else {
                    self.bring_carried(cells, number, target(number, operation, edge), carried)
                }
            }
            None => false,
        }
    }

    // Brings the row of a statement along its ways on, fall-through first; an unreachable row is not carried.
    fn bring_from<D: Domain>(&self, cells: &mut [Cell<D>], number: usize) -> bool
        requires sized { length cells.old ≡ length self.now.statements.now * width self.now.variables.now }
        requires inside { number < length self.now.statements.now }
        ensures { brought_from D.ops self.now.widening self.now.variables.now number (operation_at self.now.statements.now number) cells.old ≡ record { cells = cells.new; changed = result } }
    {
        if is_unreachable(row_at(cells, self.variables.len() + 1, number)) {
            return false;
        }
        let operation = operation_at(self.statements, number);
        let fell = self.bring_on(cells, number, operation, Edge::Fall);
        let jumped = self.bring_on(cells, number, operation, Edge::Jump);
        fell | jumped
    }

    // Sweeps once, and says whether a cell did not take in what came to it.
    pub(crate) fn over<D: Domain>(&self, cells: &mut [Cell<D>]) -> bool
        requires sized { length cells.old ≡ length self.now.statements.now * width self.now.variables.now }
        ensures { swept_with D.ops self.now.widening self.now.variables.now self.now.statements.now cells.old ≡ record { cells = cells.new; changed = result } }
    {
        if self.statements.is_empty() {
            return false;
        }
        let mut changed = self.bring_start(cells);
        // by number: a statement is read together with its row
        for number in 0..self.statements.len() {
            changed |= self.bring_from(cells, number);
        }
        changed
    }
}
