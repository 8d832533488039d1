// The labels that jumps go to.
ghost use Rattle.std.specs.Prelude.{◌≡◌, ◌≤◌, length};
ghost use Rattle.reading.specs.Reading.{label_in, aimed_statement, aimed_all, aimed_is, ends_with_return, ended};

use crate::fault::ProgramFault;
use crate::names::find;
use syntax::record::{Operation, Statement, Target};

// The statement with the target of its jump, if it is one.
fn aim(
    text: &[u8],
    statements: &[Statement],
    statement: Statement,
) -> Result<Statement, ProgramFault>
    ensures { result ≡ aimed_statement (label_in text.now statements.now) statement }
{
    match statement.operation() {
        Operation::Jump(jump, target) => {
            let label = find(text, statements, target.name).ok_or(ProgramFault::NoLabel(
                target.name.place,
            ))?;
            let target = Target {
                statement: label,
                ..target
            };
            Ok(Statement::new(Operation::Jump(jump, target), statement.place()))
        }
        _ => Ok(statement),
    }
}

// Gives each jump its target; the first that has none is a fault.
pub(crate) fn aim_jumps(text: &[u8], statements: &mut [Statement]) -> Result<(), ProgramFault>
    ensures { aimed_is result statements.new ≡ aimed_all (label_in text.now statements.old) statements.old }
{
    // by index: each jump looks among all statements, also those that an iterator would have lent
    for i in 0..statements.len() {
        let statement = aim(text, statements, statements[i])?;
        statements[i] = statement;
    }
    Ok(())
}

// Whether there is a last statement, and it is RET.
pub(crate) fn ends_with_return(statements: &[Statement]) -> bool
    ensures { result ≡ ends_with_return (length statements.now) statements.now }
{
    statements
        .last()
        .is_some_and(|last| matches!(last.operation(), Operation::Return))
}
