// Why a text or a range is refused: the number, the place and the layer that each fault tells.
ghost use Rattle.std.specs.Prelude.{◌≡◌};
ghost use Rattle.reading.specs.declared.fault.StatementFault.TheVariants.{Word};
ghost use Rattle.reading.specs.declared.fault.ProgramFault.TheVariants.{Statement};
ghost use Rattle.reading.specs.Faults.{statement_number, statement_place, program_number, program_place, program_layer, range_number, range_place};

use crate::fill::MOST_BYTES;
use thiserror::Error;
use words::WordFault;

// A fault of the words, or of one statement or declaration.
#[derive(Clone, Copy, PartialEq, Eq, Debug, Error)]
pub enum StatementFault {
    #[error("{0}")]
    Word(WordFault),
    // a word that does not fit, or the end of the text
    #[error("this word, or the end of the text, does not fit here")]
    Misfit(usize),
    // an operand that is no variable
    #[error("no variable has this name")]
    NoVariable(usize),
}

// A fault of a statement, or of the program as a whole.
#[derive(Clone, Copy, PartialEq, Eq, Debug, Error)]
pub enum ProgramFault {
    #[error("{0}")]
    Statement(StatementFault),
    // more than 65,535 bytes
    #[error("the text has more than 65535 bytes")]
    TooLong,
    // a name that is declared already
    #[error("this name is declared already")]
    Redeclared(usize),
    // a variable, or a statement, beyond the places for them
    #[error("there is no place for this variable")]
    VariablesFull(usize),
    #[error("there is no place for this statement")]
    StatementsFull(usize),
    // no RET at the end
    #[error("the last statement is not RET")]
    NoReturn(usize),
    // a jump to no label
    #[error("no label has this name")]
    NoLabel(usize),
}

// The part of reading that found a fault.
#[derive(Clone, Copy)]
pub enum Layer {
    Words,
    Statements,
    Program,
}

// A range for no INT input, or a low above the high; the place is the position.
#[derive(Clone, Copy, PartialEq, Eq, Debug, Error)]
pub enum RangeFault {
    #[error("this range is for no INT input")]
    NoIntInput(usize),
    #[error("this range has its low above its high")]
    LowAboveHigh(usize),
}

impl From<WordFault> for StatementFault {
    ghost from_gives = { λ w r. r ≡ Word w };

    fn from(fault: WordFault) -> StatementFault {
        StatementFault::Word(fault)
    }
}

impl From<StatementFault> for ProgramFault {
    ghost from_gives = { λ s r. r ≡ Statement s };

    fn from(fault: StatementFault) -> ProgramFault {
        ProgramFault::Statement(fault)
    }
}

impl StatementFault {
    pub fn number(&self) -> u8
        ensures { result ≡ statement_number self.now }
    {
        match self {
            StatementFault::Word(fault) => fault.number(),
            StatementFault::Misfit(_) => 5,
            StatementFault::NoVariable(_) => 8,
        }
    }

    pub fn place(&self) -> usize
        ensures { result ≡ statement_place self.now }
    {
        match self {
            StatementFault::Word(fault) => fault.place(),
            StatementFault::Misfit(place) | StatementFault::NoVariable(place) => *place,
        }
    }
}

impl ProgramFault {
    // The number by which users know the fault.
    pub fn number(&self) -> u8
        ensures { result ≡ program_number self.now }
    {
        match self {
            ProgramFault::Statement(fault) => fault.number(),
            ProgramFault::TooLong => 1,
            ProgramFault::Redeclared(_) => 7,
            ProgramFault::VariablesFull(_) => 9,
            ProgramFault::StatementsFull(_) => 10,
            ProgramFault::NoReturn(_) => 11,
            ProgramFault::NoLabel(_) => 8,
        }
    }

    // Where in the text it is.
    pub fn place(&self) -> usize
        ensures { result ≡ program_place self.now }
    {
        match self {
            ProgramFault::Statement(fault) => fault.place(),
            ProgramFault::TooLong => MOST_BYTES,
            ProgramFault::Redeclared(place)
            | ProgramFault::VariablesFull(place)
            | ProgramFault::StatementsFull(place)
            | ProgramFault::NoReturn(place)
            | ProgramFault::NoLabel(place) => *place,
        }
    }

    // Which part of reading found it.
    pub fn layer(&self) -> Layer
        ensures { result ≡ program_layer self.now }
    {
        match self {
            ProgramFault::Statement(StatementFault::Word(_)) => Layer::Words,
            ProgramFault::Statement(_) => Layer::Statements,
            _ => Layer::Program,
        }
    }
}

impl RangeFault {
    pub fn number(&self) -> u8
        ensures { result ≡ range_number self.now }
    {
        match self {
            RangeFault::NoIntInput(_) | RangeFault::LowAboveHigh(_) => 12,
        }
    }

    pub fn place(&self) -> usize
        ensures { result ≡ range_place self.now }
    {
        match self {
            RangeFault::NoIntInput(position) | RangeFault::LowAboveHigh(position) => *position,
        }
    }
}
