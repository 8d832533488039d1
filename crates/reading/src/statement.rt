// The next word of a text, and what it does.
ghost use Rattle.std.specs.Prelude.{◌≡◌, ◌<◌, ◌≤◌, length, IfOk, OnSome};
ghost use Rattle.words.specs.Words.{seen};
ghost use Rattle.reading.specs.Statements.{spelled, step_at, step_is};

use crate::fault::StatementFault;
use syntax::grammar::{Stage, Step};
use syntax::record::Name;
use syntax::token::classify;
use words::{Reader, Word};

// How long a word is as a name.
fn name_length(word: Word) -> usize
    ensures { result ≡ spelled (seen word.entry) }
{
    match word {
        Word::Name(bytes) => bytes.len(),
        _ => 0,
    }
}

// The next word, by its place and its length as a name, and what it does; none at the end of the text.
pub(crate) fn next_step(
    reader: &mut Reader,
    stage: Stage,
) -> Result<Option<(Name, Step)>, StatementFault>
    ensures text { reader.new.text.now ≡ reader.old.text.now }
    ensures is { step_is result reader.new.place ≡ step_at reader.old.text.now reader.old.place stage }
    ensures on { IfOk result (λ o. OnSome o (reader.old.place < reader.new.place)) }
{
    match reader.next_word()? {
        Some((place, word)) => {
            let step = stage
                .follow(classify(word))
                .ok_or(StatementFault::Misfit(place))?;
            let length = name_length(word);
            Ok(Some((Name { place, length }, step)))
        }
        None if stage.may_end() => Ok(None),
        None => Err(StatementFault::Misfit(reader.end())),
    }
}
