// Sweeps until a table is settled.
ghost use Rattle.std.specs.Prelude.{◌≡◌, ℕ, ◌*◌, length, Ok};
ghost use Rattle.reading.specs.Formed.{Formed};
ghost use Rattle.program.specs.Model.{code};
ghost use Rattle.transfer.specs.Rows.{width as width_of};
ghost use Rattle.table_check.specs.Passing.{Passes};
ghost use Rattle.fixpoint.specs.Sweeps.{swept};
ghost use Rattle.fixpoint.specs.Settling.{settled_from, settled_in, SettledTablesPass};

use crate::fault::SettleFault;
use crate::sweep::{Sweep, widens};
use cells::cell::Cell;
use domain::Domain;
use program::Program;
use syntax::record::{Statement, Variable};
use table::growing::clear;

// Sweeps up to the first in which every cell takes in what comes, or as often as is allowed.
fn settle_cells<D: Domain>(
    variables: &[Variable],
    statements: &[Statement],
    cells: &mut [Cell<D>],
    sweeps: u16,
) -> Result<u16, SettleFault>
    requires formed { Formed variables.now statements.now }
    requires size { length cells.old ≡ length statements.now * width_of variables.now }
    ensures cells { cells.new ≡ (settled_from (swept D.ops (record { variables = variables.entry.now; statements = statements.now })) 0 sweeps cells.old).cells }
    ensures answer { result ≡ (settled_from (swept D.ops (record { variables = variables.entry.now; statements = statements.now })) 0 sweeps cells.old).answer }
{
    for done in 0..sweeps {
        let sweep = Sweep {
            variables,
            statements,
            widening: widens(done + 1),
        };
        if !sweep.over(cells) {
            return Ok(done + 1);
        }
    }
    Err(SettleFault::NotSettled(sweeps as usize))
}

// Settles a program's table in cells of its size, whatever they held, and answers how many sweeps that took.
pub fn settle<D: Domain>(
    program: &Program,
    cells: &mut [Cell<D>],
    sweeps: u16,
) -> Result<u16, SettleFault>
    ensures cells { cells.new ≡ (settled_in D.ops (code program.now) sweeps cells.old).cells }
    ensures answer { result ≡ (settled_in D.ops (code program.now) sweeps cells.old).answer }
    ensures settled_tables_pass { (n : ℕ) → result ≡ Ok n → Passes D.ops (code program.now) cells.new }
{
    let variables = program.variables();
    let statements = program.statements();
    let size = statements.len() * (variables.len() + 1);
    if cells.len() != size {
        return Err(SettleFault::WrongSize(size));
    }
    clear(cells);
    settle_cells(variables, statements, cells, sweeps)
}

// Settled tables pass: a call that does nothing, and says so of all programs and numbers of sweeps.
pub fn settling_is_sound<D: Domain>()
    ensures { SettledTablesPass D.Domain.ops }
{}
