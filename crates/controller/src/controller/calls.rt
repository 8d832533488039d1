// The calls: each is answered by the controller's phase, and a refused one changes nothing.
ghost use Rattle.std.specs.Prelude.{◌≡◌, ◌≤◌, length, Ok};
ghost use Rattle.table.specs.Tables.{table_size};
ghost use Rattle.controller.specs.Lists.{output_count};
ghost use Rattle.controller.specs.Machine.{machine, code_of, fresh, if_sized, start_reply, step_reply, read_reply, read_out, request_of, reply, output, Replied};

use super::Controller;
use super::making::first_phase;
use crate::call::{Call, Sight};
use crate::fault::CallFault;
use crate::inputs::{count_inputs, first_bad};
use crate::outputs::count_outputs;
use crate::phase::Phase;
use crate::registers::Registers;

// A list of the wrong size comes before any other fault.
fn if_sized(size: usize, wanted: usize, fault: CallFault) -> CallFault
    ensures { result ≡ if_sized size wanted fault }
{
    if size == wanted {
        fault
    } else {
        CallFault::WrongSize(wanted)
    }
}

impl Controller<'_> {
    // How many cells a table has: a row for each statement.
    fn table_size(&self) -> usize
        ensures { result ≡ table_size (code_of self.now) }
    {
        self.statements.len() * (self.variables.len() + 1)
    }

    fn begin(&mut self, numbers: &[i32]) -> Result<(), CallFault>
        ensures { Replied (start_reply (code_of self.old) numbers.now (machine self.old)) self.old self.new result }
    {
        let wanted = count_inputs(self.variables);
        if numbers.len() != wanted {
            return Err(CallFault::BadInput(wanted));
        }
        match first_bad(self.variables, numbers) {
            Some(position) => Err(CallFault::BadInput(position)),
            None => {
                self.registers.enter(self.variables, numbers);
                self.at = 0;
                self.phase = Phase::Running;
                Ok(())
            }
        }
    }

    fn go_on(&mut self, sight: Sight) -> Result<(), CallFault>
        ensures { Replied (step_reply (code_of self.old) sight (machine self.old)) self.old self.new result }
    {
        let wanted = self.table_size();
        if sight.size != wanted {
            return Err(CallFault::WrongSize(wanted));
        }
        if self.counts.is_full() {
            return Err(CallFault::StepsFull(self.at));
        }
        self.advance(sight);
        Ok(())
    }

    fn renew(&mut self)
        ensures next { machine self.new ≡ fresh (code_of self.old) (machine self.old).counts }
        ensures same { code_of self.new ≡ code_of self.old }
    {
        self.phase = first_phase(self.statements);
        self.at = 0;
        self.registers = Registers::initial(self.variables);
    }

    fn show(&self, out: &mut [i32]) -> Result<(), CallFault>
        ensures answer { result ≡ (read_reply (code_of self.now) (length out.old) (machine self.now)).answer }
        ensures output { out.new ≡ read_out (code_of self.now) (machine self.now) out.old }
    {
        let wanted = count_outputs(self.variables);
        if out.len() != wanted {
            return Err(CallFault::WrongSize(wanted));
        }
        self.registers.show(self.variables, out);
        Ok(())
    }

    // Any call; a reading writes `out`.
    pub(crate) fn dispatch(&mut self, call: Call, out: &mut [i32]) -> Result<(), CallFault>
        ensures reply { Replied (reply (code_of self.old) (request_of call.entry (length out.old)) (machine self.old)) self.old self.new result }
        ensures output { out.new ≡ output (code_of self.old) (request_of call.entry (length out.old)) (machine self.old) out.old }
    {
        match (self.phase, call) {
            (Phase::Waiting, Call::Start(numbers)) => self.begin(numbers),
            (_, Call::Start(_)) => Err(CallFault::NotWaiting(self.at)),
            (Phase::Running, Call::Step(sight)) => self.go_on(sight),
            (_, Call::Step(sight)) => Err(if_sized(
                sight.size,
                self.table_size(),
                CallFault::NotRunning(self.at),
            )),
            (Phase::Waiting, Call::Read) => self.show(out),
            (_, Call::Read) => Err(if_sized(
                out.len(),
                count_outputs(self.variables),
                CallFault::NotWaiting(self.at),
            )),
            (_, Call::Restart) => {
                self.renew();
                Ok(())
            }
        }
    }
}
