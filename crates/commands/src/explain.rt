// What a job answers, in plain sentences.
use crate::fault::JobFault;
use crate::lines::name_text;
use crate::position::{column_of, line_of};
use crate::sentences::{explain_check, explain_table};
use program::Program;
use std::alloc::{AllocError, Global};
use std::fmt;
use syntax::record::{Class, Constant, Variable};

// A sentence on a text, with the line and the column of a place in it.
fn at_place<T: fmt::Display>(
    heap: Global,
    source: &str,
    text: &[u8],
    place: usize,
    trouble: &T,
) -> Result<String, AllocError> {
    let line = line_of(text, place);
    let column = column_of(text, place);
    format!(in heap; "{source}, line {line}, column {column}: {trouble}\n")
}

// Why a job is refused.
pub(crate) fn explain_fault(
    heap: Global,
    text: &[u8],
    input: &[u8],
    program: &Program,
    fault: JobFault,
) -> Result<String, AllocError> {
    match fault {
        JobFault::Program(fault) => at_place(heap, "program", text, fault.place(), &fault),
        JobFault::Ranges(fault) => at_place(heap, "ranges", input, fault.spot(), &fault),
        JobFault::Table(fault) => explain_table(heap, fault),
        JobFault::Check(fault) => explain_check(heap, text, program, fault),
        JobFault::Settle(fault) => format!(in heap; "table: {fault}\n"),
        JobFault::Script(fault) => at_place(heap, "script", input, fault.place(), &fault),
    }
}

// What is known of the values that come in by a variable.
fn input_sentence(heap: Global, text: &[u8], variable: &Variable) -> Result<String, AllocError> {
    let declaration = variable.declaration();
    let range = variable.range();
    let low = range.low;
    let high = range.high;
    let name = name_text(heap, text, declaration.name)?;
    match (declaration.class, declaration.initial) {
        (Class::Input, Constant::Int(_)) => {
            format!(in heap; "Input {name} takes whole numbers from {low} to {high}.\n")
        }
        (Class::Input, Constant::Bool(_)) => format!(in heap;
            "Input {name} takes TRUE and FALSE.\n"
        ),
        _ => Ok(String::new(heap)),
    }
}

// Appends a sentence for each input, and one on the statements.
pub(crate) fn explain_listing(
    heap: Global,
    out: &mut String,
    text: &[u8],
    program: &Program,
) -> Result<(), AllocError> {
    for variable in program.variables() {
        let sentence = input_sentence(heap, text, variable)?;
        out.push_str(sentence.as_str())?;
    }
    let count = program.statements().len();
    let last = format!(in heap;
        "The {count} statements name only declared variables and labels, and the last is RET.\n"
    )?;
    out.push_str(last.as_str())
}
