// A cell as text: u, f and t as they are allowed, then the set.
ghost use Rattle.std.specs.Prelude.{◌≡◌, [], IfOk, string_bytes};
ghost use Rattle.notation.specs.Cells.{begins_with, past, parts_text, cell_text, read_set, read_parts, read_cell};

use crate::Notation;
use cells::cell::Cell;
use domain::Domain;
use std::alloc::{AllocError, Global};

// A cell that allows something.
fn parts_text<D: Notation>(heap: Global, cell: Cell<D>) -> Result<String, AllocError>
    ensures { IfOk result (λ s. string_bytes s ≡ parts_text D.written cell) }
{
    let mut out = String::from_str(heap, if cell.unset { "u" } else { "" })?;
    out.push_str(if cell.can_be_false { "f" } else { "" })?;
    out.push_str(if cell.can_be_true { "t" } else { "" })?;
    let set = cell.numbers.text(heap)?;
    out.push_str(set.as_str())?;
    Ok(out)
}

// The text of a cell, a full stop where it is vacant.
pub fn cell_text<D: Notation>(heap: Global, cell: Cell<D>) -> Result<String, AllocError>
    ensures { IfOk result (λ s. string_bytes s ≡ cell_text D.Domain.ops D.written cell) }
{
    if cell.is_vacant() {
        String::from_str(heap, ".")
    } else {
        parts_text(heap, cell)
    }
}

// Whether the bytes begin with the letter, and what follows it if they do.
fn letter(bytes: &[u8], letter: u8) -> (bool, &[u8])
    ensures on { result.0 ≡ begins_with bytes.now letter }
    ensures rest { result.1.now ≡ past bytes.now letter }
{
    match bytes {
        [first, rest @ ..] if *first == letter => (true, rest),
        _ => (false, bytes),
    }
}

// The set of a cell; none behind a letter is the empty span.
fn read_set<D: Notation>(lettered: bool, bytes: &[u8]) -> Option<D>
    ensures { result ≡ read_set D.Domain.ops D.read_as lettered bytes.now }
{
    if !bytes.is_empty() {
        D::read(bytes)
    } else if lettered {
        Some(D::span(1, 0))
    } else {
        None
    }
}

fn read_parts<D: Notation>(bytes: &[u8]) -> Option<Cell<D>>
    ensures { result ≡ read_parts D.Domain.ops D.read_as bytes.now }
{
    let (unset, bytes) = letter(bytes, b'u');
    let (can_be_false, bytes) = letter(bytes, b'f');
    let (can_be_true, bytes) = letter(bytes, b't');
    let numbers = read_set(unset || can_be_false || can_be_true, bytes)?;
    Some(Cell {
        unset,
        can_be_false,
        can_be_true,
        numbers,
    })
}

// The cell that the bytes write.
pub fn read_cell<D: Notation>(bytes: &[u8]) -> Option<Cell<D>>
    ensures { result ≡ read_cell D.Domain.ops D.read_as bytes.now }
{
    match bytes {
        b"." => Some(Cell::nothing()),
        _ => read_parts(bytes),
    }
}
