// Why a job is refused, and what else can stop it.
ghost use Rattle.std.specs.Prelude.{◌≡◌};
ghost use Rattle.commands.specs.declared.fault.Stop.TheVariants.{Failed, Refused};
ghost use Rattle.commands.specs.Faults.{job_number, job_place};

use fixpoint::fault::SettleFault;
use ranges::fault::RangesFault;
use reading::fault::ProgramFault;
use script::ScriptFault;
use std::alloc::AllocError;
use std::io;
use table_check::fault::CheckFault;
use table_text::fault::TableFault;
use thiserror::Error;

#[derive(Clone, Copy, PartialEq, Eq, Debug, Error)]
pub enum JobFault {
    #[error("{0}")]
    Program(ProgramFault),
    #[error("{0}")]
    Ranges(RangesFault),
    #[error("{0}")]
    Table(TableFault),
    #[error("{0}")]
    Check(CheckFault),
    #[error("{0}")]
    Settle(SettleFault),
    #[error("{0}")]
    Script(ScriptFault),
}

impl JobFault {
    // The number by which users know the fault.
    pub fn number(&self) -> u8
        ensures { result ≡ job_number self.now }
    {
        match self {
            JobFault::Program(fault) => fault.number(),
            JobFault::Ranges(fault) => fault.number(),
            JobFault::Table(fault) => fault.number(),
            JobFault::Check(fault) => fault.number(),
            JobFault::Settle(fault) => fault.number(),
            JobFault::Script(fault) => fault.number(),
        }
    }

    // The place that it tells.
    pub fn place(&self) -> usize
        ensures { result ≡ job_place self.now }
    {
        match self {
            JobFault::Program(fault) => fault.place(),
            JobFault::Ranges(fault) => fault.place(),
            JobFault::Table(fault) => fault.place(),
            JobFault::Check(fault) => fault.place(),
            JobFault::Settle(fault) => fault.place(),
            JobFault::Script(fault) => fault.place(),
        }
    }
}

// What stops a job: a refusal, or that memory or printing failed.
#[derive(Drop)]
pub(crate) enum Stop<E> {
    Failed(E),
    Refused(JobFault),
}

impl<E> From<JobFault> for Stop<E> {
    ghost from_gives = { λ f s. s ≡ Refused f };

    fn from(fault: JobFault) -> Stop<E> {
        Stop::Refused(fault)
    }
}

impl From<AllocError> for Stop<AllocError> {
    ghost from_gives = { λ e s. s ≡ Failed e };

    fn from(error: AllocError) -> Stop<AllocError> {
        Stop::Failed(error)
    }
}

impl From<AllocError> for Stop<io::Error> {
    ghost from_gives = { λ e s. (x : _) × s ≡ Failed x };

    fn from(error: AllocError) -> Stop<io::Error> {
        Stop::Failed(io::Error::from(error))
    }
}

impl From<io::Error> for Stop<io::Error> {
    ghost from_gives = { λ e s. s ≡ Failed e };

    fn from(error: io::Error) -> Stop<io::Error> {
        Stop::Failed(error)
    }
}
