// A reading carried out.
ghost use Rattle.std.specs.Prelude.{◌≡◌, ◌++◌, vec_items, string_bytes, IfOk, OnOk};
ghost use Rattle.controller.specs.Machine.{machine, code_of};
ghost use Rattle.script.specs.Lines.{outputs_text};
ghost use Rattle.script.specs.Calls.{read_text};
ghost use Rattle.script.specs.Course.{course, course_of, Stays};

use super::Carrier;
use crate::line::Line;
use std::alloc::{AllocError, Global};

fn outputs_text(heap: Global, outputs: &[i32]) -> Result<String, AllocError>
    ensures { IfOk result (λ s. string_bytes s ≡ outputs_text outputs.now) }
{
    let mut out = String::from_str(heap, "read")?;
    for number in outputs {
        write!(out, " {number}")?;
    }
    out.push_str("\n")?;
    Ok(out)
}

impl<D> Carrier<'_, D> {
    // The line of a reading into as many numbers as there are outputs.
    pub(crate) fn read(&mut self) -> Result<(), AllocError>
        ensures course { OnOk result (course_of self.new ≡ course (vec_items self.old.numbers) (machine self.old.controller) (string_bytes self.old.output ++ read_text (code_of self.old.controller) self.old.count (machine self.old.controller))) }
        ensures stays { Stays self.old self.new }
    {
        let mut outputs = vec![in self.heap; 0i32; self.count]?;
        match self.controller.read_outputs(&mut outputs) {
            Ok(()) => {
                let text = outputs_text(self.heap, &outputs)?;
                self.output.push_str(text.as_str())
            }
            Err(fault) => {
                let line = Line::Refused(fault);
                write!(self.output, "{line}")
            }
        }
    }
}
