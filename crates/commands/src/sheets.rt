// The job `sheet`: a table is proposed, and judged before it is written out.
ghost use Rattle.std.specs.Prelude.{◌≡◌, length, min, IfOk};
ghost use Rattle.program.specs.Model.{code, memory};
ghost use Rattle.commands.specs.Judging.{sheet_over, sheet_ready, sheet_in, sheet_refusal};
ghost use Rattle.commands.specs.Endings.{Ends};

use crate::answer::{Answer, answer_by};
use crate::checking::{blank_cells, blank_marks};
use crate::fault::{JobFault, Stop};
use crate::judging::{make_ready, write_judged};
use cells::cell::Cell;
use fixpoint::settling::settle;
use notation::Notation;
use options::request::Options;
use program::Program;
use std::io;
use transfer::marks::Marks;

// The sweeps that the options allow.
pub(crate) fn sweeps_of(options: Options) -> u16
    ensures { result ≡ min options.sweeps 65535 }
{
    u16::try_from(options.sweeps).unwrap_or(u16::MAX)
}

// Settles a table over cells, and judges it.
fn sheet_over<D: Notation>(
    rt: &HostRuntime,
    options: Options,
    program: &Program,
    cells: &mut [Cell<D>],
    marks: &mut [Marks],
) -> Result<Answer, Stop<io::Error>>
    ensures { Ends result (sheet_over D.Domain.ops (code program.now) (min options.sweeps 65535) cells.old (length marks.old)) }
{
    let count = settle(program, cells, sweeps_of(options)).map_err(JobFault::Settle)?;
    let heading = format!(in rt.alloc(); "settled {count}\n")?;
    write_judged(rt, options.explain, heading.as_str(), program, cells, marks)
}

// Settles the table of a program whose ranges are set, and judges it.
fn sheet_ready<D: Notation>(
    rt: &HostRuntime,
    options: Options,
    program: &Program,
) -> Result<Answer, Stop<io::Error>>
    ensures { Ends result (sheet_ready D.Domain.ops (min options.sweeps 65535) (code program.now)) }
{
    let mut cells = blank_cells::<D>(rt.alloc(), program)?;
    let mut marks = blank_marks(rt.alloc(), program)?;
    sheet_over(rt, options, program, &mut cells, &mut marks)
}

fn sheet_in<D: Notation>(
    rt: &HostRuntime,
    options: Options,
    input: &[u8],
    program: &mut Program,
) -> Result<Answer, Stop<io::Error>>
    ensures { Ends result (sheet_in D.Domain.ops (min options.sweeps 65535) input.now (memory program.old)) }
{
    make_ready(program, input)?;
    sheet_ready::<D>(rt, options, program)
}

// The job `sheet`, in as many records and sweeps as the options say: writes the sheet of the table that settles, and answers what follows it.
pub fn write_sheet<D: Notation>(
    rt: &HostRuntime,
    options: Options,
    text: &[u8],
    input: &[u8],
) -> io::Result<Answer>
    ensures { IfOk result (λ a. a.refusal ≡ sheet_refusal D.Domain.ops (min options.sweeps 65535) text.now input.now options.variables options.statements) }
{
    answer_by(rt.alloc(), options, text, input, |program| {
        sheet_in::<D>(rt, options, input, program)
    })
}
