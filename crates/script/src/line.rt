// What a call is told to have come to.
ghost use Rattle.std.specs.Prelude.{◌≡◌, Some};
ghost use Rattle.controller.specs.Machine.{machine};
ghost use Rattle.script.specs.Lines.{stands_as, line_for, cause_letter, line_text};

use controller::{CallFault, Controller, Phase};
use meaning::compute::Cause;
use std::fmt;

#[derive(Clone, Copy)]
pub enum Line {
    Started,
    Restarted,
    // before a statement
    At(usize),
    Waiting,
    // at a statement, and why
    Stopped(usize, Option<Cause>),
    Refused(CallFault),
}

// Where a controller stands.
pub(crate) fn standing(controller: &Controller) -> Line
    ensures { result ≡ stands_as (machine controller.now) }
{
    match controller.phase() {
        Phase::Waiting => Line::Waiting,
        Phase::Running => Line::At(controller.at()),
        Phase::Stopped(cause) => Line::Stopped(controller.at(), cause),
    }
}

// A line, unless the call was refused.
pub(crate) fn line_for(answer: Result<(), CallFault>, line: Line) -> Line
    ensures { result ≡ line_for answer line }
{
    match answer {
        Ok(()) => line,
        Err(fault) => Line::Refused(fault),
    }
}

fn cause_letter(cause: Option<Cause>) -> &'static str
    ensures { result.now ≡ cause_letter cause }
{
    match cause {
        Some(Cause::Overflow) => "O",
        Some(Cause::ZeroDivisor) => "Z",
        Some(Cause::Kind) => "K",
        None => "-",
    }
}

impl fmt::Display for Line {
    ghost output = { λ line. Some (line_text line) };

    fn fmt<W: fmt::Write>(&self, f: &mut fmt::Formatter<W>) -> fmt::Result {
        match self {
            Line::Started => write!(f, "started\n"),
            Line::Restarted => write!(f, "restarted\n"),
            Line::At(place) => write!(f, "at {place}\n"),
            Line::Waiting => write!(f, "waiting\n"),
            Line::Stopped(place, cause) => {
                let letter = cause_letter(*cause);
                write!(f, "stopped {place} {letter}\n")
            }
            Line::Refused(fault) => {
                let number = fault.number();
                let place = fault.place();
                write!(f, "refused {number} {place}\n")
            }
        }
    }
}
