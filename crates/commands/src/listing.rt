// A program as it was read: its variables, then its statements.
use crate::lines::{statement_line, variable_line};
use program::Program;
use std::alloc::{AllocError, Global};
use syntax::record::{Statement, Variable};

// The variables' lines and the statements' take different things: one loop for both would be given a closure that allocates.
fn list_variables(
    heap: Global,
    out: &mut String,
    text: &[u8],
    variables: &[Variable],
) -> Result<(), AllocError> {
    let count = variables.len();
    let heading = format!(in heap; "variables {count}\n")?;
    out.push_str(heading.as_str())?;
    for (i, variable) in variables.iter().enumerate() {
        let line = variable_line(heap, text, i, variable)?;
        out.push_str(line.as_str())?;
    }
    Ok(())
}

fn list_statements(
    heap: Global,
    out: &mut String,
    text: &[u8],
    variables: &[Variable],
    statements: &[Statement],
) -> Result<(), AllocError> {
    let count = statements.len();
    let heading = format!(in heap; "statements {count}\n")?;
    out.push_str(heading.as_str())?;
    for (i, statement) in statements.iter().enumerate() {
        let line = statement_line(heap, text, variables, statements, i, statement)?;
        out.push_str(line.as_str())?;
    }
    Ok(())
}

// Appends a line for each variable and each statement of the program.
pub(crate) fn list_program(
    heap: Global,
    out: &mut String,
    text: &[u8],
    program: &Program,
) -> Result<(), AllocError> {
    list_variables(heap, out, text, program.variables())?;
    list_statements(heap, out, text, program.variables(), program.statements())
}
