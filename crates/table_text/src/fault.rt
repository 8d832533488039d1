// Why the text of a table is refused.
ghost use Rattle.std.specs.Prelude.{◌≡◌};
ghost use Rattle.table_text.specs.Faults.{table_number, table_place};

use thiserror::Error;

#[derive(Clone, Copy, PartialEq, Eq, Debug, Error)]
pub enum TableFault {
    // more than 1,048,576 bytes
    #[error("the text has more than 1048576 bytes")]
    TooLong,
    // a word that does not fit, or the end of the text
    #[error("this word, or the end of the text, does not fit here")]
    Misfit(usize),
}

impl TableFault {
    // The number by which users know the fault.
    pub fn number(&self) -> u8
        ensures { result ≡ table_number self.now }
    {
        match self {
            TableFault::TooLong => 1,
            TableFault::Misfit(_) => 5,
        }
    }

    // Where in the text it is.
    pub fn place(&self) -> usize
        ensures { result ≡ table_place self.now }
    {
        match self {
            TableFault::TooLong => 1_048_576,
            TableFault::Misfit(place) => *place,
        }
    }
}
