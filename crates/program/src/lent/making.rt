// How a program comes from a text.
ghost use Rattle.std.specs.Prelude.{◌≡◌, length};
ghost use Rattle.reading.specs.Reading.{reading};
ghost use Rattle.program.specs.Model.{memory, read_memory, outcome_of, TellsFirst};

use super::Program;
use reading::fault::ProgramFault;
use reading::fill::fill;
use syntax::record::{Statement, Variable};

impl<'r> Program<'r> {
    // Reads a text into the records; a refused text leaves them blank, and a program that holds nothing and says why.
    pub fn read(
        text: &[u8],
        variables: &'r mut [Variable],
        statements: &'r mut [Statement],
    ) -> Program<'r>
        ensures is { memory result ≡ read_memory (reading text.now (length variables.old) (length statements.old)) }
        ensures first_fault { TellsFirst text.now (length variables.old) (length statements.old) (memory result).fault }
        ensures variables { result.variables.ghost_name ≡ variables.entry.ghost_name }
        ensures statements { result.statements.ghost_name ≡ statements.entry.ghost_name }
    {
        let outcome = fill(text, variables, statements);
        Program {
            variables,
            statements,
            outcome,
        }
    }

    // Why the text was refused, where it was.
    pub fn outcome(&self) -> Result<(), ProgramFault>
        ensures { result ≡ outcome_of (memory self.now).fault }
    {
        self.outcome.map(|_| ())
    }
}
