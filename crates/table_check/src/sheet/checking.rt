// The check, which alone makes a sheet.
ghost use Rattle.std.specs.Prelude.{◌≡◌, true, length, is_ok};
ghost use Rattle.program.specs.Model.{code};
ghost use Rattle.table_check.specs.Passing.{Passes};
ghost use Rattle.table_check.specs.Sheets.{shown_by, checked, marks_after};

use super::Sheet;
use crate::fault::CheckFault;
use crate::judged::Judged;
use cells::cell::Cell;
use domain::Domain;
use program::Program;
use transfer::marks::Marks;

// A table of the right size is judged by its first failure.
fn judge<'c, 'p, D: Domain>(
    program: &'p Program<'_>,
    cells: &'c [Cell<D>],
    marks: &mut [Marks],
) -> Result<Sheet<'c, 'p, D>, CheckFault>
    ensures answer { shown_by result ≡ checked D.Domain.ops (code program.now) cells.now (length marks.old) }
    ensures marks { marks.new ≡ marks_after D.Domain.ops (code program.now) cells.now marks.old }
{
    let variables = program.variables();
    let statements = program.statements();
    let size = statements.len() * (variables.len() + 1);
    if cells.len() != size {
        return Err(CheckFault::WrongSize(size));
    }
    if marks.len() != statements.len() {
        return Err(CheckFault::WrongSize(statements.len()));
    }
    let table = Judged {
        variables,
        statements,
        cells,
    };
    if let Some(place) = table.first_failure() {
        marks.fill(Marks::NONE);
        return Err(CheckFault::NotWithin(place));
    }
    table.write_marks(marks);
    Ok(Sheet { table })
}

// Judges a table by what it holds: hands out its sheet and writes its marks, or says which cell first fails and leaves no marks.
pub fn check<'c, 'p, D: Domain>(
    program: &'p Program<'_>,
    cells: &'c [Cell<D>],
    marks: &mut [Marks],
) -> Result<Sheet<'c, 'p, D>, CheckFault>
    ensures answer { shown_by result ≡ checked D.Domain.ops (code program.now) cells.now (length marks.old) }
    ensures marks { marks.new ≡ marks_after D.Domain.ops (code program.now) cells.now marks.old }
    ensures only_passing { is_ok result ≡ true → Passes D.Domain.ops (code program.now) cells.now }
    ensures each_passing { Passes D.Domain.ops (code program.now) cells.now → length marks.old ≡ length (code program.now).statements → is_ok result ≡ true }
{
    judge(program, cells, marks)
}
