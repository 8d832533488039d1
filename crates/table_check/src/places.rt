// The first place of a table that does not take in what is carried there.
ghost use Rattle.std.specs.Prelude.{◌≡◌, ◌*◌, ◌<◌, ◌≤◌, length};
ghost use Rattle.transfer.specs.Rows.{width, row_at, start_row};
ghost use Rattle.transfer.specs.Transfer.{target_of};
ghost use Rattle.transfer.specs.Carrying.{row_of};
ghost use Rattle.table.specs.Tables.{operation_at};
ghost use Rattle.table_check.specs.Failures.{first_outside, fails_at, fails_on, fails_from, fails_among, fails_with};

use crate::judged::Judged;
use crate::starting::starting;
use cells::cell::Cell;
use domain::Domain;
use meaning::edge::Edge;
use syntax::record::Operation;
use transfer::carry::{Carried, carried_cell, carry, is_carried_unreachable, target};
use transfer::rows::{cell_at, is_unreachable};

impl<'c, 'p, D: Domain> Judged<'c, 'p, D> {
    // The first place from `start` on whose cell does not take in what comes there.
    fn first_outside(&self, start: usize, carried: Carried<D>, row: &[Cell<D>]) -> Option<usize>
        requires wide { length (row_of D.Domain.ops self.now.variables.now row.now carried) ≡ width self.now.variables.now }
        requires near { start ≤ 66560 }
        ensures { result ≡ first_outside D.Domain.ops self.now.variables.now self.now.cells.now start (row_of D.Domain.ops self.now.variables.now row.now carried) }
    {
        (0..self.width())
            .find(|i| !carried_cell(carried, self.variables, row, *i).within(cell_at(
                self.cells,
                start + *i,
            )))
            .map(|i| start + i)
    }

    // Where a row that comes to a statement is not taken in; one that is unreachable asks nothing.
    fn fails_at(&self, to: usize, carried: Carried<D>, row: &[Cell<D>]) -> Option<usize>
        requires wide { length (row_of D.Domain.ops self.now.variables.now row.now carried) ≡ width self.now.variables.now }
        requires near { to ≤ 1024 }
        ensures { result ≡ fails_at D.Domain.ops self.now.variables.now self.now.cells.now to (row_of D.Domain.ops self.now.variables.now row.now carried) }
    {
        if is_carried_unreachable(carried, self.variables, row) {
            None
        } else {
            self.first_outside(to * self.width(), carried, row)
        }
    }

    // Where the start row is not taken in by the row of statement 0.
    fn fails_first(&self) -> Option<usize>
        ensures { result ≡ fails_at D.Domain.ops self.now.variables.now self.now.cells.now 0 (start_row D.Domain.ops self.now.variables.now) }
    {
        self.fails_at(0, starting(), &self.cells[0..0])
    }

    // Where the row of a statement, carried on one way on, is not taken in.
    fn fails_on(&self, from: usize, operation: Operation, edge: Edge) -> Option<usize>
        requires inside { from < length self.now.statements.now }
        requires near { target_of from operation edge ≤ 1024 }
        ensures { result ≡ fails_on D.Domain.ops self.now.variables.now self.now.cells.now from operation edge }
    {
        let row = self.row(from);
        let carried = carry(self.variables, row, operation, edge)?;
        self.fails_at(target(from, operation, edge), carried, row)
    }

    // Where the row of a statement is not taken in, on each way on, fall-through first; an unreachable row asks nothing.
    fn fails_from(&self, from: usize) -> Option<usize>
        requires inside { from < length self.now.statements.now }
        ensures { result ≡ fails_from D.Domain.ops self.now.variables.now self.now.cells.now from (operation_at self.now.statements.now from) }
    {
        if is_unreachable(self.row(from)) {
            return None;
        }
        let operation = self.operation(from);
        let fall = self.fails_on(from, operation, Edge::Fall);
        let jump = self.fails_on(from, operation, Edge::Jump);
        fall.or(jump)
    }

    // Where the row of some statement is not taken in, by the statements' order.
    fn fails_among(&self) -> Option<usize>
        ensures { result ≡ fails_among D.Domain.ops self.now.variables.now self.now.cells.now 0 self.now.statements.now }
    {
        // no proof was found of the answer of a `find_map` over the numbers
        for k in 0..self.statements.len() {
            if let Some(place) = self.fails_from(k) {
                return Some(place);
            }
        }
        None
    }

    // The first place of a table that does not take in what is carried there.
    pub(crate) fn first_failure(&self) -> Option<usize>
        ensures { result ≡ fails_with D.Domain.ops self.now.variables.now self.now.cells.now self.now.statements.now }
    {
        if self.statements.is_empty() {
            return None;
        }
        // no proof was found of the answer of an `or_else` whose closure calls a method of `self`
        if let Some(place) = self.fails_first() {
            return Some(place);
        }
        self.fails_among()
    }
}
