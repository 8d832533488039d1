// What a job answers: text for standard output, text for standard error, and whether it refused.
ghost use Rattle.std.specs.Prelude.{◌≡◌, List, ◌++◌, length, IfOk, Some, None, string_bytes, codes, decimal, min};
ghost use Rattle.script.specs.Lines.{refusal_text};
ghost use Rattle.program.specs.Model.{memory, read_memory};
ghost use Rattle.reading.specs.Reading.{reading};
ghost use Rattle.commands.specs.Endings.{Ends, EndsBy};
ghost use Rattle.commands.specs.Faults.{job_number, job_place};
ghost use Rattle.commands.specs.Refusal.{refusal_in, refusal_of};

use crate::explain::{explain_fault, explain_listing};
use crate::fault::{JobFault, Stop};
use crate::judging::make_ready;
use crate::listing::list_program;
use options::request::Options;
use program::Program;
use std::alloc::{AllocError, Global};
use syntax::record::{Statement, Variable};

#[derive(Drop)]
pub struct Answer {
    pub output: String,
    pub note: String,
    pub refusal: Option<JobFault>,
}

// A refusal is the last line of the output.
fn refused(heap: Global, fault: JobFault, note: String) -> Result<Answer, AllocError>
    ensures refusal { IfOk result (λ a. a.refusal ≡ Some fault) }
    ensures output { IfOk result (λ a. string_bytes a.output ≡ refusal_text (job_number fault) (job_place fault)) }
{
    let number = fault.number();
    let place = fault.place();
    Ok(Answer {
        output: format!(in heap; "refused {number} {place}\n")?,
        note,
        refusal: Some(fault),
    })
}

// What a job answers by its ending; a refusal is explained only where that was asked for.
fn conclude<E: From<AllocError>>(
    heap: Global,
    explain: bool,
    text: &[u8],
    input: &[u8],
    program: &Program,
    ending: Result<Answer, Stop<E>>,
) -> Result<Answer, E>
    ensures { (refusal : _) → Ends ending refusal → IfOk result (λ a. a.refusal ≡ refusal) }
{
    match ending {
        Ok(answer) => Ok(answer),
        Err(Stop::Failed(error)) => Err(error),
        Err(Stop::Refused(fault)) => {
            let note = if explain {
                explain_fault(heap, text, input, program, fault)?
            } else {
                String::new(heap)
            };
            let answer = refused(heap, fault, note)?;
            Ok(answer)
        }
    }
}

// Lists what was read of a program's text, with the ranges that the input sets.
fn list_in(
    heap: Global,
    explain: bool,
    text: &[u8],
    input: &[u8],
    program: &mut Program,
) -> Result<Answer, Stop<AllocError>>
    ensures { Ends result (refusal_in input.now (memory program.old)) }
{
    make_ready(program, input)?;
    let mut output = String::new(heap);
    list_program(heap, &mut output, text, program)?;
    if explain {
        explain_listing(heap, &mut output, text, program)?;
    }
    Ok(Answer {
        output,
        note: String::new(heap),
        refusal: None,
    })
}

// What a job answers that is carried out on the program of a text, in as many records as the options say.
pub(crate) fn answer_by<E: From<AllocError>, J: FnOnce(&mut Program) -> Result<Answer, Stop<E>>>(
    heap: Global,
    options: Options,
    text: &[u8],
    input: &[u8],
    job: J,
) -> Result<Answer, E>
    requires { J.IsAlwaysCallable job }
    ensures { (want : _) → EndsBy J.FnOnce job want → IfOk result (λ a. a.refusal ≡ want (read_memory (reading text.now options.variables options.statements))) }
{
    let mut variables = vec![in heap; Variable::BLANK; options.variables]?;
    let mut statements = vec![in heap; Statement::BLANK; options.statements]?;
    let mut program = Program::read(text, &mut variables, &mut statements);
    let ending = job(&mut program);
    conclude(heap, options.explain, text, input, &program, ending)
}

// The job `list`, in as many records as the options say.
pub fn list(heap: Global, options: Options, text: &[u8], input: &[u8]) -> Result<Answer, AllocError>
    ensures { IfOk result (λ a. a.refusal ≡ refusal_of text.now input.now options.variables options.statements) }
{
    answer_by(heap, options, text, input, |program| {
        list_in(heap, options.explain, text, input, program)
    })
}
