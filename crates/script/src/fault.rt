// Why a script ends before its end.
ghost use Rattle.std.specs.Prelude.{◌≡◌};
ghost use Rattle.script.specs.declared.fault.ScriptFault.TheVariants.{Word};
ghost use Rattle.script.specs.declared.fault.Ending.TheVariants.{Failed, Refused};
ghost use Rattle.script.specs.Faults.{script_number, script_place};

use std::alloc::{AllocError, AllocFailed};
use thiserror::Error;
use words::WordFault;

#[derive(Clone, Copy, PartialEq, Eq, Debug, Error)]
pub enum ScriptFault {
    #[error("{0}")]
    Word(WordFault),
    // a word that does not fit, or a name that is no call
    #[error("this word does not fit here")]
    Misfit(usize),
}

impl ScriptFault {
    // The number by which users know the fault.
    pub fn number(&self) -> u8
        ensures { result ≡ script_number self.now }
    {
        match self {
            ScriptFault::Word(fault) => fault.number(),
            ScriptFault::Misfit(_) => 5,
        }
    }

    // Where in the text it is.
    pub fn place(&self) -> usize
        ensures { result ≡ script_place self.now }
    {
        match self {
            ScriptFault::Word(fault) => fault.place(),
            ScriptFault::Misfit(place) => *place,
        }
    }
}

impl From<WordFault> for ScriptFault {
    ghost from_gives = { λ w r. r ≡ Word w };

    fn from(fault: WordFault) -> ScriptFault {
        ScriptFault::Word(fault)
    }
}

// What stops the carrying out of a script: its fault, or no memory for its lines.
#[derive(Clone, Copy)]
pub(crate) enum Ending {
    Failed(AllocError),
    Refused(ScriptFault),
}

impl From<AllocError> for Ending {
    ghost from_gives = { λ e r. r ≡ Failed e };

    fn from(error: AllocError) -> Ending {
        Ending::Failed(error)
    }
}

impl<T: Drop> From<AllocFailed<T>> for Ending {
    ghost from_gives = { λ e r. (x : _) × r ≡ Failed x };

    fn from(error: AllocFailed<T>) -> Ending {
        Ending::Failed(AllocError::from(error))
    }
}

impl From<ScriptFault> for Ending {
    ghost from_gives = { λ f r. r ≡ Refused f };

    fn from(fault: ScriptFault) -> Ending {
        Ending::Refused(fault)
    }
}

impl From<WordFault> for Ending {
    ghost from_gives = { λ w r. r ≡ Refused (Word w) };

    fn from(fault: WordFault) -> Ending {
        Ending::Refused(ScriptFault::Word(fault))
    }
}
