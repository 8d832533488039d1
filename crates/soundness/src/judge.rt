// The call that judges a table and hands out its sheet, with all that a sheet promises.
ghost use Rattle.std.specs.Prelude.{◌≡◌, true, length, is_ok};
ghost use Rattle.program.specs.Model.{code};
ghost use Rattle.table_check.specs.Passing.{Passes};
ghost use Rattle.table_check.specs.Sheets.{shown_by, checked, marks_after};
ghost use Rattle.fixpoint.specs.Settling.{SettledTablesPass};
ghost use Rattle.soundness.specs.Reachable.{ReachableCovered};
ghost use Rattle.soundness.specs.Promise.{StepsStayCovered, StopsAreMarked};

use crate::promise::beside_any_passing_table;
use cells::cell::Cell;
use domain::Domain;
use fixpoint::settling::settling_is_sound;
use program::Program;
use table_check::fault::CheckFault;
use table_check::sheet::Sheet;
use table_check::sheet::checking::check;
use transfer::marks::Marks;

// Judges a table for a program and its ranges. A table that passes, whoever made it, is handed out as a sheet, with its marks.
// Beside any table that passes no step ever begins outside its row, and no stop comes whose cause its line is not marked with;
// and every table that the sweeps settle passes.
pub fn judge<'c, 'p, D: Domain>(
    program: &'p Program<'_>,
    cells: &'c [Cell<D>],
    marks: &mut [Marks],
) -> Result<Sheet<'c, 'p, D>, CheckFault>
    ensures answer { shown_by result ≡ checked D.Domain.ops (code program.now) cells.now (length marks.old) }
    ensures marks { marks.new ≡ marks_after D.Domain.ops (code program.now) cells.now marks.old }
    ensures only_passing { is_ok result ≡ true → Passes D.Domain.ops (code program.now) cells.now }
    ensures each_passing { Passes D.Domain.ops (code program.now) cells.now → length marks.old ≡ length (code program.now).statements → is_ok result ≡ true }
    ensures steps_stay_covered { StepsStayCovered D.Domain.ops (code program.now) }
    ensures stops_are_marked { StopsAreMarked D.Domain.ops (code program.now) }
    ensures reachable_covered { ReachableCovered D.Domain.ops (code program.now) }
    ensures settled_tables_pass { SettledTablesPass D.Domain.ops }
{
    settling_is_sound::<D>();
    beside_any_passing_table::<D>(program);
    check(program, cells, marks)
}
