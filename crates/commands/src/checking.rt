// The job `check`: a table that comes as text is judged.
ghost use Rattle.std.specs.Prelude.{◌≡◌, length, replicate, IfOk};
ghost use Rattle.program.specs.Model.{code, memory};
ghost use Rattle.cells.specs.Cells.{nothing};
ghost use Rattle.table.specs.Tables.{table_size};
ghost use Rattle.commands.specs.Judging.{check_ready, check_in, check_refusal};
ghost use Rattle.commands.specs.Endings.{Ends};

use crate::answer::{Answer, answer_by};
use crate::fault::{JobFault, Stop};
use crate::judging::{make_ready, write_judged};
use cells::cell::Cell;
use domain::Domain;
use notation::Notation;
use options::request::Options;
use program::Program;
use std::alloc::{AllocError, Global};
use std::io;
use table_text::text::read_table;
use transfer::marks::Marks;

// Cells that allow nothing, a row for each statement; grown, since `vec!` clones a cell, and no proof says what a clone over any D is.
pub(crate) fn blank_cells<D: Domain>(
    heap: Global,
    program: &Program,
) -> Result<Vec<Cell<D>>, AllocError>
    ensures { IfOk result (λ v. v.items ≡ replicate (table_size (code program.now)) (nothing D.Domain.ops)) }
{
    let size = program.statements().len() * (program.variables().len() + 1);
    let mut cells = Vec::new(heap);
    cells.resize(size, Cell::nothing())?;
    Ok(cells)
}

// Places for the marks of each statement.
pub(crate) fn blank_marks(heap: Global, program: &Program) -> Result<Vec<Marks>, AllocError>
    ensures { IfOk result (λ v. length v.items ≡ length (code program.now).statements) }
{
    vec![in heap; Marks::NONE; program.statements().len()]
}

// Reads the table of a program whose ranges are set, and judges it.
fn check_ready<D: Notation>(
    rt: &HostRuntime,
    explain: bool,
    table: &[u8],
    program: &Program,
) -> Result<Answer, Stop<io::Error>>
    ensures { Ends result (check_ready D.Domain.ops D.Notation.read_as table.now (code program.now)) }
{
    let rows = program.statements().len();
    let width = program.variables().len() + 1;
    let mut cells = blank_cells::<D>(rt.alloc(), program)?;
    let mut marks = blank_marks(rt.alloc(), program)?;
    read_table(table, rows, width, &mut cells).map_err(JobFault::Table)?;
    write_judged(rt, explain, "", program, &cells, &mut marks)
}

fn check_in<D: Notation>(
    rt: &HostRuntime,
    explain: bool,
    input: &[u8],
    table: &[u8],
    program: &mut Program,
) -> Result<Answer, Stop<io::Error>>
    ensures { Ends result (check_in D.Domain.ops D.Notation.read_as input.now table.now (memory program.old)) }
{
    make_ready(program, input)?;
    check_ready::<D>(rt, explain, table, program)
}

// The job `check`, in as many records as the options say: writes the sheet of a table that passes, and answers what follows it.
pub fn check_table<D: Notation>(
    rt: &HostRuntime,
    options: Options,
    text: &[u8],
    input: &[u8],
    table: &[u8],
) -> io::Result<Answer>
    ensures { IfOk result (λ a. a.refusal ≡ check_refusal D.Domain.ops D.Notation.read_as text.now input.now table.now options.variables options.statements) }
{
    answer_by(rt.alloc(), options, text, input, |program| {
        check_in::<D>(rt, options.explain, input, table, program)
    })
}
