// What each number of a range does.
ghost use Rattle.std.specs.Prelude.{◌≡◌};
ghost use Rattle.program.specs.Model.{memory, SetAs};
ghost use Rattle.words.specs.Words.{seen};
ghost use Rattle.ranges.specs.Ranges.{number_in, position_at, number_taken, word_taken};

use crate::fault::RangesFault;
use numbers::Int;
use program::Program;
use words::Word;

// The input that a range is for, and where the range begins in its text.
#[derive(Clone, Copy)]
pub struct Input {
    pub place: usize,
    pub position: usize,
}

// Which number of a range is to come.
#[derive(Clone, Copy)]
pub enum Awaiting {
    Position,
    // after the position
    Low(Input),
    // after the position and the low
    High(Input, Int),
}

// The value of a number word; no other word fits.
fn number_in(place: usize, word: Word) -> Result<Int, RangesFault>
    ensures { result ≡ number_in place (seen word.entry) }
{
    match word {
        Word::Number(bytes) => numbers::value(bytes).ok_or(RangesFault::Misfit(place)),
        _ => Err(RangesFault::Misfit(place)),
    }
}

fn position_at(place: usize, number: Int) -> Result<usize, RangesFault>
    ensures { result ≡ position_at place number }
{
    usize::try_from(number).map_err(|_| RangesFault::Misfit(place))
}

// The third number of a range sets it.
fn take_number(
    program: &mut Program,
    awaiting: Awaiting,
    place: usize,
    number: Int,
) -> Result<Awaiting, RangesFault>
    ensures { SetAs (number_taken (memory program.old) awaiting place number) result program.old program.new }
{
    match awaiting {
        Awaiting::Position => {
            let position = position_at(place, number)?;
            Ok(Awaiting::Low(Input { place, position }))
        }
        Awaiting::Low(input) => Ok(Awaiting::High(input, number)),
        Awaiting::High(input, low) => {
            program
                .set_range(input.position, low, number)
                .map_err(|fault| RangesFault::Range(fault, input.place))?;
            Ok(Awaiting::Position)
        }
    }
}

pub(crate) fn take_word(
    program: &mut Program,
    awaiting: Awaiting,
    place: usize,
    word: Word,
) -> Result<Awaiting, RangesFault>
    ensures { SetAs (word_taken (memory program.old) awaiting place (seen word.entry)) result program.old program.new }
{
    let number = number_in(place, word)?;
    take_number(program, awaiting, place, number)
}
