// The ranges of a text, up to where they end.
ghost use Rattle.std.specs.Prelude.{◌≡◌};
ghost use Rattle.words.specs.Words.{seen};
ghost use Rattle.program.specs.Model.{memory, SetAs};
ghost use Rattle.ranges.specs.Ranges.{ended, ends, taken_until, setting_until, setting};
ghost use Rattle.ranges.specs.Front.{setting_front};

use crate::fault::RangesFault;
use crate::take::{Awaiting, take_word};
use program::Program;
use reading::fill::MOST_BYTES;
use words::{Reader, Word};

// Where the ranges of a text end. The definition of what a text sets takes it, and so does the code.
#[derive(Clone, Copy, PartialEq, Eq, Debug)]
pub(crate) enum Until {
    // at the end of the text
    End,
    // where the first name stands
    Name,
}

// Whether a word ends the ranges.
fn ends(until: Until, awaiting: Awaiting, word: Word) -> bool
    ensures { result ≡ ends until awaiting (seen word.entry) }
{
    matches!(
        (until, awaiting, word),
        (Until::Name, Awaiting::Position, Word::Name(_))
    )
}

// The text may end only before a range.
fn end(awaiting: Awaiting, place: usize) -> Result<(), RangesFault>
    ensures { result ≡ ended awaiting place }
{
    match awaiting {
        Awaiting::Position => Ok(()),
        _ => Err(RangesFault::Misfit(place)),
    }
}

// Sets each range as its three words are read.
fn take_words(program: &mut Program, text: &[u8], until: Until) -> Result<(), RangesFault>
    ensures { SetAs (taken_until until text.now (memory program.old)) result program.old program.new }
{
    let mut reader = Reader::new(text);
    let mut awaiting = Awaiting::Position;
    while let Some((place, word)) = reader.next_word()? {
        if ends(until, awaiting, word) {
            return Ok(());
        }
        awaiting = take_word(program, awaiting, place, word)?;
    }
    end(awaiting, text.len())
}

fn set_until(program: &mut Program, text: &[u8], until: Until) -> Result<(), RangesFault>
    ensures { SetAs (setting_until until text.now (memory program.old)) result program.old program.new }
{
    if text.len() > MOST_BYTES {
        return Err(RangesFault::TooLong);
    }
    take_words(program, text, until)
}

// Sets the ranges that a text writes, in their order; the first fault ends it, and the ranges before that stay set.
pub fn set_ranges(program: &mut Program, text: &[u8]) -> Result<(), RangesFault>
    ensures is { SetAs (setting text.now (memory program.old)) result program.old program.new }
{
    set_until(program, text, Until::End)
}

// Sets the ranges that stand before the first name of a script; what follows is not looked at.
pub fn set_front(program: &mut Program, text: &[u8]) -> Result<(), RangesFault>
    ensures is { SetAs (setting_front text.now (memory program.old)) result program.old program.new }
{
    set_until(program, text, Until::Name)
}
