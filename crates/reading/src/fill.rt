// Filling the caller's records from a text.
ghost use Rattle.std.specs.Prelude.{◌≡◌, length, replicate, IfOk};
ghost use Rattle.syntax.specs.Records.{no_variable, no_statement};
ghost use Rattle.reading.specs.Drafts.{draft_of};
ghost use Rattle.reading.specs.FirstFault.{FirstFault};
ghost use Rattle.reading.specs.Formed.{Filled};
ghost use Rattle.reading.specs.Reading.{start, taken, finished, onward, filled_is, extent_of, reading, ReadAs};

use crate::draft::{Draft, Extent};
use crate::fault::ProgramFault;
use syntax::record::{Statement, Variable};

// The longest text that is read, in bytes.
pub const MOST_BYTES: usize = 65_535;

// Fills blank records; what a refused text leaves is not told.
fn fill_blank(
    text: &[u8],
    variables: &mut [Variable],
    statements: &mut [Statement],
) -> Result<Extent, ProgramFault>
    ensures { filled_is result variables.new statements.new ≡ extent_of (onward (taken text.now (draft_of start variables.old statements.old)) (finished text.now)) }
{
    let mut draft = Draft::new(text, variables, statements);
    draft.take_words()?;
    draft.finish()?;
    Ok(draft.extent())
}

fn clear(variables: &mut [Variable], statements: &mut [Statement])
    ensures variables { variables.new ≡ replicate (length variables.old) no_variable }
    ensures statements { statements.new ≡ replicate (length statements.old) no_statement }
{
    variables.fill(Variable::BLANK);
    statements.fill(Statement::BLANK);
}

// The same of any records: a refused text leaves them all blank.
fn fill_any(
    text: &[u8],
    variables: &mut [Variable],
    statements: &mut [Statement],
) -> Result<Extent, ProgramFault>
    ensures is { ReadAs (reading text.now (length variables.old) (length statements.old)) result variables.new statements.new }
{
    clear(variables, statements);
    if text.len() > MOST_BYTES {
        return Err(ProgramFault::TooLong);
    }
    let extent = fill_blank(text, variables, statements);
    if extent.is_err() {
        clear(variables, statements);
    }
    extent
}

// Fills the records from a text, and blanks the rest; a refused text leaves them all blank.
pub fn fill(
    text: &[u8],
    variables: &mut [Variable],
    statements: &mut [Statement],
) -> Result<Extent, ProgramFault>
    ensures is { ReadAs (reading text.now (length variables.old) (length statements.old)) result variables.new statements.new }
    ensures first_fault { FirstFault text.now (length variables.old) (length statements.old) result }
    ensures filled { IfOk result (λ e. Filled e variables.new statements.new) }
{
    fill_any(text, variables, statements)
}
