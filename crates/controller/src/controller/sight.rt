// What a step sees of its table.
ghost use Rattle.std.specs.Prelude.{◌≡◌};
ghost use Rattle.controller.specs.Machine.{machine, code_of, sight_of};

use super::Controller;
use crate::call::Sight;
use cells::cell::Cell;
use domain::Domain;
use table::rows::{operation_at, row_at};
use transfer::marks::marks_of;

impl Controller<'_> {
    pub(crate) fn look<D: Domain>(&self, cells: &[Cell<D>]) -> Sight
        ensures { result ≡ sight_of D.ops (code_of self.now) cells.now (machine self.now) }
    {
        let row = row_at(cells, self.variables.len() + 1, self.at);
        Sight {
            size: cells.len(),
            covered: self.registers.is_covered(row),
            marks: marks_of(self.variables, row, operation_at(self.statements, self.at)),
        }
    }
}
