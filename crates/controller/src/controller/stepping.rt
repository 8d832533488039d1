// One statement run and counted.
ghost use Rattle.std.specs.Prelude.{◌≡◌};
ghost use Rattle.controller.specs.Machine.{machine, code_of, phase_after, stepped};

use super::Controller;
use crate::call::Sight;
use crate::phase::Phase;
use syntax::record::Operation;
use table::rows::operation_at;
use transfer::carry::target;

// A return ends the scan.
fn phase_after(operation: Operation) -> Phase
    ensures { result ≡ phase_after operation }
{
    match operation {
        Operation::Return => Phase::Waiting,
        _ => Phase::Running,
    }
}

impl Controller<'_> {
    // Runs the statement where the controller stands.
    pub(crate) fn advance(&mut self, sight: Sight)
        ensures next { machine self.new ≡ stepped (code_of self.old) sight (machine self.old) }
        ensures same { code_of self.new ≡ code_of self.old }
    {
        let operation = operation_at(self.statements, self.at);
        match self.registers.perform(self.variables, operation) {
            Ok(edge) => {
                self.at = target(self.at, operation, edge);
                self.phase = phase_after(operation);
                self.counts.count(!sight.covered, false);
            }
            Err(cause) => {
                self.phase = Phase::Stopped(Some(cause));
                self.counts.count(!sight.covered, !sight.marks.has(cause));
            }
        }
    }
}
