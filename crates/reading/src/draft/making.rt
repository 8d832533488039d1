// How a text makes a draft, from its beginning to its end.
ghost use Rattle.std.specs.Prelude.{◌≡◌};
ghost use Rattle.reading.specs.Drafts.{draft_of};
ghost use Rattle.reading.specs.Reading.{start, taken, finished};
ghost use Rattle.reading.specs.Lent.{draft, Becomes};

use super::{Draft, Extent, Progress};
use crate::fault::ProgramFault;
use crate::statement::next_step;
use crate::targets::{aim_jumps, ends_with_return};
use syntax::grammar::Stage;
use syntax::record::{Statement, Variable};
use words::Reader;

impl<'t, 'r> Draft<'t, 'r> {
    // Nothing is recorded yet.
    pub(crate) fn new(
        text: &'t [u8],
        variables: &'r mut [Variable],
        statements: &'r mut [Statement],
    ) -> Draft<'t, 'r>
        ensures text { result.text.now ≡ text.now }
        ensures is { draft result ≡ draft_of start variables.old statements.old }
        ensures variables { result.variables.ghost_name ≡ variables.entry.ghost_name }
        ensures statements { result.statements.ghost_name ≡ statements.entry.ghost_name }
    {
        Draft {
            text,
            variables,
            statements,
            progress: Progress {
                stage: Stage::Blocks,
                variables: 0,
                statements: 0,
            },
        }
    }

    // Lets each word of the text do what it does.
    pub(crate) fn take_words(&mut self) -> Result<(), ProgramFault>
        ensures { Becomes (taken self.old.text.now (draft self.old)) result self.old self.new }
    {
        let mut reader = Reader::new(self.text);
        while let Some((name, step)) = next_step(&mut reader, self.progress.stage)? {
            self.apply(name, step)?;
        }
        Ok(())
    }

    // The end of the text: the last statement is RET, and each jump gets its target.
    pub(crate) fn finish(&mut self) -> Result<(), ProgramFault>
        ensures { Becomes (finished self.old.text.now (draft self.old)) result self.old self.new }
    {
        let text = self.text;
        let used = self.progress.statements;
        let statements = &mut self.statements[..used];
        if !ends_with_return(statements) {
            return Err(ProgramFault::NoReturn(text.len()));
        }
        aim_jumps(text, statements)
    }

    // How many records are in use.
    pub(crate) fn extent(&self) -> Extent
        ensures { result ≡ record { variables = self.now.progress.variables; statements = self.now.progress.statements } }
    {
        Extent {
            variables: self.progress.variables,
            statements: self.progress.statements,
        }
    }
}
