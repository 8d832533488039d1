// Why a text of ranges is refused.
ghost use Rattle.std.specs.Prelude.{◌≡◌};
ghost use Rattle.ranges.specs.declared.fault.RangesFault.TheVariants.{Word};
ghost use Rattle.ranges.specs.Faults.{ranges_number, ranges_place, ranges_spot};

use reading::fault::RangeFault;
use reading::fill::MOST_BYTES;
use thiserror::Error;
use words::WordFault;

#[derive(Clone, Copy, PartialEq, Eq, Debug, Error)]
pub enum RangesFault {
    // more than 65,535 bytes
    #[error("the text has more than 65535 bytes")]
    TooLong,
    #[error("{0}")]
    Word(WordFault),
    // a word that does not fit, or the end of the text
    #[error("this word, or the end of the text, does not fit here")]
    Misfit(usize),
    // a range that the program refuses, which begins at a place of the text
    #[error("{0}")]
    Range(RangeFault, usize),
}

impl From<WordFault> for RangesFault {
    ghost from_gives = { λ w r. r ≡ Word w };

    fn from(fault: WordFault) -> RangesFault {
        RangesFault::Word(fault)
    }
}

impl RangesFault {
    // The number by which users know the fault.
    pub fn number(&self) -> u8
        ensures { result ≡ ranges_number self.now }
    {
        match self {
            RangesFault::TooLong => 1,
            RangesFault::Word(fault) => fault.number(),
            RangesFault::Misfit(_) => 5,
            RangesFault::Range(fault, _) => fault.number(),
        }
    }

    // Where in the text it is, or for which position the range was.
    pub fn place(&self) -> usize
        ensures { result ≡ ranges_place self.now }
    {
        match self {
            RangesFault::TooLong => MOST_BYTES,
            RangesFault::Word(fault) => fault.place(),
            RangesFault::Misfit(place) => *place,
            RangesFault::Range(fault, _) => fault.place(),
        }
    }

    // Where in the text it is: of a refused range, where that begins.
    pub fn spot(&self) -> usize
        ensures { result ≡ ranges_spot self.now }
    {
        match self {
            RangesFault::TooLong => MOST_BYTES,
            RangesFault::Word(fault) => fault.place(),
            RangesFault::Misfit(place) | RangesFault::Range(_, place) => *place,
        }
    }
}
