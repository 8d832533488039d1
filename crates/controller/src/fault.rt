// Why a call is refused.
ghost use Rattle.std.specs.Prelude.{◌≡◌};
ghost use Rattle.controller.specs.Faults.{number_of, place_of};

use thiserror::Error;

#[derive(Clone, Copy, PartialEq, Eq, Debug, Error)]
pub enum CallFault {
    // cells or an output list not of the size that is wanted
    #[error("{0} places are wanted")]
    WrongSize(usize),
    // a start or a reading at a statement where the controller does not wait
    #[error("the controller does not wait, at statement {0}")]
    NotWaiting(usize),
    // a step at a statement where it does not run
    #[error("the controller does not run, at statement {0}")]
    NotRunning(usize),
    // a step at a statement after the last that can be counted
    #[error("no step more can be counted, at statement {0}")]
    StepsFull(usize),
    // not as many input numbers as there are inputs, or the first number outside its input's range
    #[error("{0} numbers are wanted, or the one at position {0} is outside its input's range")]
    BadInput(usize),
}

impl CallFault {
    pub fn number(&self) -> u8
        ensures { result ≡ number_of self.now }
    {
        match self {
            CallFault::WrongSize(_) => 21,
            CallFault::NotWaiting(_) => 22,
            CallFault::NotRunning(_) => 23,
            CallFault::StepsFull(_) => 24,
            CallFault::BadInput(_) => 14,
        }
    }

    pub fn place(&self) -> usize
        ensures { result ≡ place_of self.now }
    {
        match self {
            CallFault::WrongSize(place)
            | CallFault::NotWaiting(place)
            | CallFault::NotRunning(place)
            | CallFault::StepsFull(place)
            | CallFault::BadInput(place) => *place,
        }
    }
}
