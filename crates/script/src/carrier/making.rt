// A new carrier, and what it reports at the end.
ghost use Rattle.std.specs.Prelude.{◌≡◌, [], ◌++◌, string_bytes, IfOk, OnOk};
ghost use Rattle.program.specs.Model.{code};
ghost use Rattle.controller.specs.Tallies.{none};
ghost use Rattle.controller.specs.Machine.{machine, code_of, fresh};
ghost use Rattle.script.specs.Course.{course, course_of, last_text};

use super::Carrier;
use crate::fault::ScriptFault;
use crate::run::Report;
use cells::cell::Cell;
use controller::{Controller, count_outputs};
use program::Program;
use std::alloc::{AllocError, Global};

impl<'a, D> Carrier<'a, D> {
    // One with a new controller, that has carried out nothing.
    pub(crate) fn new(
        heap: Global,
        program: &'a Program<'_>,
        cells: &'a [Cell<D>],
    ) -> Carrier<'a, D>
        ensures course { course_of result ≡ course [] (fresh (code program.now) none) [] }
        ensures code { code_of result.controller ≡ code program.now }
        ensures cells { result.cells.now ≡ cells.now }
    {
        Carrier {
            heap,
            controller: Controller::new(program),
            cells,
            count: count_outputs(program.variables()),
            numbers: Vec::new(heap),
            output: String::new(heap),
        }
    }

    // The last line: the refusal that ended the script, or the counts.
    fn push_last(&mut self, refusal: Option<ScriptFault>) -> Result<(), AllocError>
        ensures { OnOk result (string_bytes self.new.output ≡ string_bytes self.old.output ++ last_text (machine self.old.controller).counts refusal) }
    {
        match refusal {
            Some(fault) => {
                let number = fault.number();
                let place = fault.place();
                write!(self.output, "refused {number} {place}\n")
            }
            None => {
                let counts = self.controller.counts();
                let steps = counts.steps();
                let outside = counts.outside();
                let unmarked = counts.unmarked();
                write!(
                    self.output,
                    "steps {steps} outside {outside} unmarked {unmarked}\n"
                )
            }
        }
    }

    // The lines, and what ended the script.
    pub(crate) fn report(mut self, refusal: Option<ScriptFault>) -> Result<Report, AllocError>
        ensures refusal { IfOk result (λ r. r.refusal ≡ refusal) }
        ensures output { IfOk result (λ r. string_bytes r.output ≡ (course_of self.entry).text ++ last_text (course_of self.entry).machine.counts refusal) }
    {
        self.push_last(refusal)?;
        Ok(Report {
            output: self.output,
            refusal,
        })
    }
}
