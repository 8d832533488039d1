// What the jobs do before and after they have a table: the ranges set, and a table judged and written out where it passes.
ghost use Rattle.std.specs.Prelude.{◌≡◌, length, IfOk, None};
ghost use Rattle.program.specs.Model.{code, memory};
ghost use Rattle.table_check.specs.Sheets.{checked};
ghost use Rattle.commands.specs.Refusal.{refusal_in};
ghost use Rattle.commands.specs.Judging.{readied, by_check};
ghost use Rattle.commands.specs.Endings.{fault_of, Ends};

use crate::answer::Answer;
use crate::fault::{JobFault, Stop};
use crate::sentences::explain_marks;
use cells::cell::Cell;
use notation::Notation;
use program::Program;
use ranges::set_ranges;
use soundness::judge::judge;
use std::alloc::{AllocError, Global};
use std::io;
use transfer::marks::Marks;

// Sets the ranges of a program that was read, or says why it is refused.
pub(crate) fn make_ready(program: &mut Program, input: &[u8]) -> Result<(), JobFault>
    ensures is { fault_of result ≡ refusal_in input.now (memory program.old) }
    ensures memory { memory program.new ≡ readied input.now (memory program.old) }
    ensures variables { program.new.variables.ghost_name ≡ program.old.variables.ghost_name }
    ensures statements { program.new.statements.ghost_name ≡ program.old.statements.ghost_name }
{
    program.outcome().map_err(JobFault::Program)?;
    set_ranges(program, input).map_err(JobFault::Ranges)
}

// An answer with nothing to refuse: sentences where they were asked for.
fn passed(heap: Global, explain: bool, marks: &[Marks]) -> Result<Answer, AllocError>
    ensures { IfOk result (λ a. a.refusal ≡ None) }
{
    let output = if explain {
        explain_marks(heap, marks)?
    } else {
        String::new(heap)
    };
    Ok(Answer {
        output,
        note: String::new(heap),
        refusal: None,
    })
}

// Judges a table, and writes its sheet out below a heading where it passes.
pub(crate) fn write_judged<D: Notation>(
    rt: &HostRuntime,
    explain: bool,
    heading: &str,
    program: &Program,
    cells: &[Cell<D>],
    marks: &mut [Marks],
) -> Result<Answer, Stop<io::Error>>
    ensures { Ends result (by_check (checked D.Domain.ops (code program.now) cells.now (length marks.old))) }
{
    let sheet = judge(program, cells, marks).map_err(JobFault::Check)?;
    print!(rt; "{heading}")?;
    sheet.write_out(rt)?;
    let answer = passed(rt.alloc(), explain, marks)?;
    Ok(answer)
}
