// Why the check hands out no sheet.
ghost use Rattle.std.specs.Prelude.{◌≡◌};
ghost use Rattle.table_check.specs.Faults.{number_of, place_of};

use thiserror::Error;

#[derive(Clone, Copy, PartialEq, Eq, Debug, Error)]
pub enum CheckFault {
    // cells or marks that are not of the size wanted
    #[error("{0} places are wanted")]
    WrongSize(usize),
    // the place of the first cell that does not take in what is carried there
    #[error("the cell at place {0} does not take in all that comes there")]
    NotWithin(usize),
}

impl CheckFault {
    pub fn number(self) -> u8
        ensures { result ≡ number_of self }
    {
        match self {
            CheckFault::WrongSize(_) => 21,
            CheckFault::NotWithin(_) => 15,
        }
    }

    pub fn place(self) -> usize
        ensures { result ≡ place_of self }
    {
        match self {
            CheckFault::WrongSize(place) | CheckFault::NotWithin(place) => place,
        }
    }
}
