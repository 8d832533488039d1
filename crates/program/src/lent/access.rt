// What others read of a program.
ghost use Rattle.std.specs.Prelude.{◌≡◌};
ghost use Rattle.reading.specs.Formed.{Formed};
ghost use Rattle.program.specs.Model.{code, extent_in, InUse};

use super::Program;
use reading::draft::Extent;
use syntax::record::{Statement, Variable};

impl<'r> Program<'r> {
    // How many records are in use; none of a refused text.
    fn extent(&self) -> Extent
        ensures is { result ≡ extent_in self.now.outcome }
        ensures there { InUse result self.now.variables.now self.now.statements.now }
    {
        self.outcome.unwrap_or(Extent {
            variables: 0,
            statements: 0,
        })
    }

    // The declared variables, in order.
    pub fn variables(&self) -> &[Variable]
        ensures value { result.now ≡ (code self.now).variables }
        ensures formed { Formed (code self.now).variables (code self.now).statements }
    {
        &self.variables[..self.extent().variables]
    }

    // The statements, in order: what they name is there, and the last is RET.
    pub fn statements(&self) -> &[Statement]
        ensures value { result.now ≡ (code self.now).statements }
        ensures formed { Formed (code self.now).variables (code self.now).statements }
    {
        &self.statements[..self.extent().statements]
    }
}
