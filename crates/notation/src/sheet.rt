// A line of a sheet: the statement's number, the marks and the cells of its row.
ghost use Rattle.std.specs.Prelude.{◌≡◌, IfOk, string_bytes, OnOk};
ghost use Rattle.notation.specs.Cells.{line_head, with_cell, sheet_line};

use crate::Notation;
use crate::cell::cell_text;
use cells::cell::Cell;
use std::alloc::{AllocError, Global};
use transfer::marks::Marks;

fn line_head(heap: Global, number: usize, marks: Marks) -> Result<String, AllocError>
    ensures { IfOk result (λ s. string_bytes s ≡ line_head number marks) }
{
    let mut out = format!(in heap; "{number} ")?;
    out.push_str(if marks.overflow { "O" } else { "-" })?;
    out.push_str(if marks.zero_divisor { "Z" } else { "-" })?;
    out.push_str(if marks.kind { "K" } else { "-" })?;
    out.push_str(if marks.unreachable { "N" } else { "-" })?;
    Ok(out)
}

// Appends a cell, after a blank.
fn push_cell<D: Notation>(heap: Global, out: &mut String, cell: Cell<D>) -> Result<(), AllocError>
    ensures { OnOk result (string_bytes out.new ≡ with_cell D.Domain.ops D.written (string_bytes out.old) cell) }
{
    let text = cell_text(heap, cell)?;
    out.push_str(" ")?;
    out.push_str(text.as_str())
}

// The line of a statement, with its line feed.
pub fn sheet_line<D: Notation>(
    heap: Global,
    number: usize,
    marks: Marks,
    row: &[Cell<D>],
) -> Result<String, AllocError>
    ensures { IfOk result (λ s. string_bytes s ≡ sheet_line D.Domain.ops D.written number marks row.now) }
{
    let mut out = line_head(heap, number, marks)?;
    for cell in row {
        push_cell(heap, &mut out, *cell)?;
    }
    out.push_str("\n")?;
    Ok(out)
}
