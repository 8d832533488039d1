// A whole script.
ghost use Rattle.std.specs.Prelude.{◌≡◌, IfOk, string_bytes};
ghost use Rattle.program.specs.Model.{code};
ghost use Rattle.script.specs.Course.{script_text};
ghost use Rattle.script.specs.Script.{script_refusal};

use crate::carrier::Carrier;
use crate::fault::{Ending, ScriptFault};
use cells::cell::Cell;
use domain::Domain;
use program::Program;
use std::alloc::{AllocError, Global};

// The lines of a script, and what ended it before its end.
#[derive(Drop)]
pub struct Report {
    pub output: String,
    pub refusal: Option<ScriptFault>,
}

// Carries out the calls of a script beside a table; the ranges at its front are passed over.
pub fn run_calls<D: Domain>(
    heap: Global,
    program: &Program,
    cells: &[Cell<D>],
    text: &[u8],
) -> Result<Report, AllocError>
    ensures refusal { IfOk result (λ x. x.refusal ≡ script_refusal text.now) }
    ensures output { IfOk result (λ x. string_bytes x.output ≡ script_text D.ops (code program.now) cells.now text.now) }
{
    let mut carrier = Carrier::new(heap, program, cells);
    let refusal = match carrier.take_words(text) {
        Ok(()) => None,
        Err(Ending::Refused(fault)) => Some(fault),
        Err(Ending::Failed(error)) => return Err(error),
    };
    carrier.report(refusal)
}
