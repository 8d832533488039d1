// What a judged table has at the number of a statement.
ghost use Rattle.std.specs.Prelude.{◌≡◌};
ghost use Rattle.transfer.specs.Rows.{width, row_at};
ghost use Rattle.table.specs.Tables.{operation_at};

use crate::judged::Judged;
use cells::cell::Cell;
use domain::Domain;
use syntax::record::Operation;
use table::rows;

impl<'c, 'p, D: Domain> Judged<'c, 'p, D> {
    // How many cells a row has.
    pub(crate) fn width(&self) -> usize
        ensures { result ≡ width self.now.variables.now }
    {
        self.variables.len() + 1
    }

    // The row before a statement, as far as the cells reach.
    pub(crate) fn row(&self, index: usize) -> &[Cell<D>]
        ensures { result.now ≡ row_at (width self.now.variables.now) self.now.cells.now index }
    {
        rows::row_at(self.cells, self.width(), index)
    }

    // The operation of a statement; a return where there is none.
    pub(crate) fn operation(&self, index: usize) -> Operation
        ensures { result ≡ operation_at self.now.statements.now index }
    {
        rows::operation_at(self.statements, index)
    }
}
