// A table and its marks in plain sentences.
use crate::lines::name_text;
use program::Program;
use std::alloc::{AllocError, Global};
use table_check::fault::CheckFault;
use table_text::fault::TableFault;
use transfer::marks::Marks;

// What follows of a sentence where it is meant.
fn said_if(meant: bool, words: &'static str) -> &'static str {
    if meant { words } else { "" }
}

// What the marks of a statement say; nothing where it has none.
fn marks_sentence(heap: Global, number: usize, marks: Marks) -> Result<String, AllocError> {
    if marks.unreachable {
        return format!(in heap; "Statement {number} is never reached.\n");
    }
    if marks.number() == 0 {
        return Ok(String::new(heap));
    }
    let overflow = said_if(marks.overflow, "; its result can lie outside INT");
    let zero = said_if(marks.zero_divisor, "; its divisor can be 0");
    let kind = said_if(
        marks.kind,
        "; a value can be of a kind that it does not take",
    );
    format!(in heap; "Statement {number} can stop the controller{overflow}{zero}{kind}.\n")
}

// A sentence for each marked statement of a table that passed, and one on the others.
pub(crate) fn explain_marks(heap: Global, marks: &[Marks]) -> Result<String, AllocError> {
    let mut out = String::new(heap);
    for (number, mark) in marks.iter().enumerate() {
        let sentence = marks_sentence(heap, number, *mark)?;
        out.push_str(sentence.as_str())?;
    }
    out.push_str(
        "No other statement stops the controller, and each row covers all values that come to it.\n",
    )?;
    Ok(out)
}

// Whose cell a place of a row is.
fn owner(heap: Global, text: &[u8], program: &Program, cell: usize) -> Result<String, AllocError> {
    let variables = program.variables();
    if cell > 0 && cell - 1 < variables.len() {
        name_text(heap, text, variables[cell - 1].declaration().name)
    } else {
        format!(in heap; "the current result")
    }
}

// Why the check refuses a table.
pub(crate) fn explain_check(
    heap: Global,
    text: &[u8],
    program: &Program,
    fault: CheckFault,
) -> Result<String, AllocError> {
    match fault {
        CheckFault::WrongSize(_) => format!(in heap; "table: {fault}\n"),
        CheckFault::NotWithin(place) => {
            let width = program.variables().len() + 1;
            let row = place / width;
            let who = owner(heap, text, program, place % width)?;
            format!(in heap;
                "table, line of statement {row}: the cell of {who} does not take in all that comes there\n"
            )
        }
    }
}

// Why the text of a table is refused.
pub(crate) fn explain_table(heap: Global, fault: TableFault) -> Result<String, AllocError> {
    match fault {
        TableFault::TooLong => format!(in heap; "table: {fault}\n"),
        TableFault::Misfit(place) => format!(in heap; "table, byte {place}: {fault}\n"),
    }
}
