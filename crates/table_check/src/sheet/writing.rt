// How a sheet is written out.
ghost use Rattle.std.specs.Prelude.{◌≡◌, IfOk, string_bytes};
ghost use Rattle.table_check.specs.Sheets.{shown, line_of};

use super::Sheet;
use notation::Notation;
use notation::sheet::sheet_line;
use std::alloc::{AllocError, Global};
use std::io;

impl<'c, 'p, D: Notation> Sheet<'c, 'p, D> {
    // The line of a statement, with the marks of its row as the check works them out.
    fn line(&self, heap: Global, index: usize) -> Result<String, AllocError>
        ensures { IfOk result (λ s. string_bytes s ≡ line_of D.Domain.ops D.written (shown self.now) index) }
    {
        let marks = self.table.marks_at(index);
        let row = self.table.row(index);
        sheet_line(heap, index, marks, row)
    }

    // Writes the sheet to standard output, a line for each statement.
    pub fn write_out(self, rt: &HostRuntime) -> io::Result<()> {
        // by number, which the line begins with
        for k in 0..self.table.statements.len() {
            let line = self.line(rt.alloc(), k)?;
            let text = line.as_str();
            print!(rt; "{text}")?;
        }
        Ok(())
    }
}
