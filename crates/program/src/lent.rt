// A program in records that the caller lends.
ghost use Rattle.std.specs.Result.{ForOk};
ghost use Rattle.reading.specs.Formed.{Filled};

use reading::draft::Extent;
use reading::fault::ProgramFault;
use syntax::record::{Statement, Variable};

pub mod access;
pub mod making;
pub mod ranging;

// The first records of each slice are the program's, where its text was read; else there is the fault, since reading always answers a program.
// The slices stay whole, with counts beside them, so that contracts can say what all of the caller's records hold.
#[derive(Drop)]
pub struct Program<'r> {
    variables: &'r mut [Variable],
    statements: &'r mut [Statement],
    outcome: Result<Extent, ProgramFault>,
    ghost filled: { ForOk outcome (λ e. Filled e variables.now statements.now) },
}
