// Why a table is not settled.
ghost use Rattle.std.specs.Prelude.{◌≡◌};
ghost use Rattle.fixpoint.specs.Faults.{number_of, place_of};

use thiserror::Error;

#[derive(Clone, Copy, PartialEq, Eq, Debug, Error)]
pub enum SettleFault {
    // cells not of the size that is wanted
    #[error("{0} places are wanted")]
    WrongSize(usize),
    // some cell still changed in the last of the sweeps that are allowed
    #[error("it did not settle in {0} sweeps")]
    NotSettled(usize),
}

impl SettleFault {
    pub fn number(&self) -> u8
        ensures { result ≡ number_of self.now }
    {
        match self {
            SettleFault::WrongSize(_) => 21,
            SettleFault::NotSettled(_) => 25,
        }
    }

    pub fn place(&self) -> usize
        ensures { result ≡ place_of self.now }
    {
        match self {
            SettleFault::WrongSize(place) | SettleFault::NotSettled(place) => *place,
        }
    }
}
