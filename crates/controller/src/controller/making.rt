// A new controller, and what others read of one.
ghost use Rattle.std.specs.Prelude.{◌≡◌, ◌≤◌, length};
ghost use Rattle.program.specs.Model.{code};
ghost use Rattle.controller.specs.Tallies.{tally, none};
ghost use Rattle.controller.specs.Machine.{machine, code_of, fresh, first_phase};

use super::Controller;
use crate::counts::Counts;
use crate::phase::Phase;
use crate::registers::Registers;
use program::Program;
use syntax::record::Statement;

// A controller waits for its first scan, unless its program has no statement.
pub(crate) fn first_phase(statements: &[Statement]) -> Phase
    ensures { result ≡ first_phase statements.now }
{
    match statements {
        [] => Phase::Stopped(None),
        [_, ..] => Phase::Waiting,
    }
}

impl<'p> Controller<'p> {
    // A controller that has not run yet: it waits at statement 0 with the initial values.
    pub fn new(program: &'p Program<'_>) -> Controller<'p>
        ensures is { machine result ≡ fresh (code program.now) none }
        ensures code { code_of result ≡ code program.now }
    {
        let variables = program.variables();
        let statements = program.statements();
        Controller {
            variables,
            statements,
            phase: first_phase(statements),
            at: 0,
            registers: Registers::initial(variables),
            counts: Counts::new(),
        }
    }

    pub fn phase(&self) -> Phase
        ensures { result ≡ (machine self.now).phase }
    {
        self.phase
    }

    // The statement that it is before, or that stopped it.
    pub fn at(&self) -> usize
        ensures { result ≡ (machine self.now).at }
    {
        self.at
    }

    pub fn counts(&self) -> Counts
        ensures { tally result ≡ (machine self.now).counts }
    {
        self.counts
    }
}
