// The marks of a table's rows.
ghost use Rattle.std.specs.Prelude.{◌≡◌, length};
ghost use Rattle.table_check.specs.Sheets.{marks_at, marked};

use crate::judged::Judged;
use domain::Domain;
use transfer::marks::{Marks, marks_of};

impl<'c, 'p, D: Domain> Judged<'c, 'p, D> {
    // The marks of the row before a statement.
    pub(crate) fn marks_at(&self, index: usize) -> Marks
        ensures { result ≡ marks_at D.Domain.ops (record { variables = self.now.variables.now; statements = self.now.statements.now }) self.now.cells.now index }
    {
        marks_of(self.variables, self.row(index), self.operation(index))
    }

    // Writes the marks of each row.
    pub(crate) fn write_marks(&self, marks: &mut [Marks])
        requires sized { length marks.old ≡ length self.now.statements.now }
        ensures { marks.new ≡ marked D.Domain.ops (record { variables = self.now.variables.now; statements = self.now.statements.now }) self.now.cells.now }
    {
        for (k, mark) in marks.iter_mut().enumerate() {
            *mark = self.marks_at(k);
        }
    }
}
