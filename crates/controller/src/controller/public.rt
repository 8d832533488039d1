// What a user calls.
ghost use Rattle.std.specs.Prelude.{◌≡◌, length};
ghost use Rattle.controller.specs.Tallies.{tally};
ghost use Rattle.controller.specs.Machine.{machine, code_of, fresh, sight_of, to_start, to_step, to_read, reply, output, Replied};
ghost use Rattle.controller.specs.Laws.{StartLaws, StepLaws};
ghost use Rattle.controller.specs.Runs.{after, take_step, RunsAlike};

use super::Controller;
use crate::call::Call;
use crate::fault::CallFault;
use cells::cell::Cell;
use domain::Domain;

impl Controller<'_> {
    // Starts a scan with one number for each input in declared order, BOOLs as 0 or 1.
    pub fn start(&mut self, numbers: &[i32]) -> Result<(), CallFault>
        ensures reply { Replied (reply (code_of self.old) (to_start numbers.now) (machine self.old)) self.old self.new result }
        ensures laws { StartLaws (machine self.old) (machine self.new) result }
    {
        self.dispatch(Call::Start(numbers), &mut [])
    }

    // Runs one statement beside a table, whether that passed the check or not, and counts what the table did not foresee.
    pub fn step<D: Domain>(&mut self, cells: &[Cell<D>]) -> Result<(), CallFault>
        ensures reply { Replied (reply (code_of self.old) (to_step (sight_of D.ops (code_of self.old) cells.now (machine self.old))) (machine self.old)) self.old self.new result }
        ensures runs { machine self.new ≡ after D.ops (code_of self.old) cells.now take_step (machine self.old) }
        ensures laws { StepLaws (machine self.old) (machine self.new) result }
        ensures alike { RunsAlike D.ops (code_of self.old) }
    {
        let sight = self.look(cells);
        self.dispatch(Call::Step(sight), &mut [])
    }

    // Makes the controller as new, but for its counts.
    pub fn restart(&mut self)
        ensures next { machine self.new ≡ fresh (code_of self.old) (machine self.old).counts }
        ensures same { code_of self.new ≡ code_of self.old }
    {
        let _ = self.dispatch(Call::Restart, &mut []);
    }

    // Writes the outputs in declared order, BOOLs as 0 or 1.
    pub fn read_outputs(&mut self, out: &mut [i32]) -> Result<(), CallFault>
        ensures reply { Replied (reply (code_of self.old) (to_read (length out.old)) (machine self.old)) self.old self.new result }
        ensures output { out.new ≡ output (code_of self.old) (to_read (length out.old)) (machine self.old) out.old }
        ensures unchanged { machine self.new ≡ machine self.old }
    {
        self.dispatch(Call::Read, out)
    }
}
