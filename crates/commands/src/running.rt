// The job `run`: a script of calls, carried out beside a table.
ghost use Rattle.std.specs.Prelude.{◌≡◌, IfOk};
ghost use Rattle.script.specs.Script.{script_refusal};
ghost use Rattle.program.specs.Model.{memory};
ghost use Rattle.commands.specs.Running.{by_script, run_refusal_in, run_refusal};
ghost use Rattle.commands.specs.Endings.{Ends};

use crate::answer::{Answer, answer_by};
use crate::checking::blank_cells;
use crate::fault::{JobFault, Stop};
use crate::sheets::sweeps_of;
use domain::Domain;
use fixpoint::settling::settle;
use options::request::Options;
use program::Program;
use ranges::set_front;
use script::run_calls;
use std::alloc::{AllocError, Global};

// What a script answers beside the table that the sweeps leave, settled or not.
fn run_beside_proposed<D: Domain>(
    heap: Global,
    sweeps: u16,
    program: &Program,
    input: &[u8],
) -> Result<Answer, AllocError>
    ensures { IfOk result (λ a. a.refusal ≡ by_script (script_refusal input.now)) }
{
    let mut cells = blank_cells::<D>(heap, program)?;
    let _ = settle(program, &mut cells, sweeps);
    let report = run_calls(heap, program, &cells, input)?;
    Ok(Answer {
        output: report.output,
        note: String::new(heap),
        refusal: report.refusal.map(JobFault::Script),
    })
}

fn run_in<D: Domain>(
    heap: Global,
    sweeps: u16,
    input: &[u8],
    program: &mut Program,
) -> Result<Answer, Stop<AllocError>>
    ensures { Ends result (run_refusal_in input.now (memory program.old)) }
{
    program.outcome().map_err(JobFault::Program)?;
    set_front(program, input).map_err(JobFault::Ranges)?;
    let answer = run_beside_proposed::<D>(heap, sweeps, program, input)?;
    Ok(answer)
}

// The job `run`, in as many records and sweeps as the options say; it explains nothing.
pub fn run<D: Domain>(
    heap: Global,
    options: Options,
    text: &[u8],
    input: &[u8],
) -> Result<Answer, AllocError>
    ensures { IfOk result (λ a. a.refusal ≡ run_refusal text.now input.now options.variables options.statements) }
{
    let silent = Options {
        explain: false,
        ..options
    };
    answer_by(heap, silent, text, input, |program| {
        run_in::<D>(heap, sweeps_of(options), input, program)
    })
}
