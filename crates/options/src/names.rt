// The names of jobs, options and kinds of sets.
ghost use Rattle.std.specs.Prelude.{◌≡◌};
ghost use Rattle.options.specs.Line.{is_option, job_named, flag_named, kind_named};

use crate::request::{Flag, Job, Limit, SetKind};

// Whether a word begins with two hyphens.
pub(crate) fn is_option(word: &[u8]) -> bool
    ensures { result ≡ is_option word.now }
{
    matches!(word, [b'-', b'-', ..])
}

// An Option says all: TryFrom would want an error type beside it.
pub(crate) fn job_named(word: &[u8]) -> Option<Job>
    ensures { result ≡ job_named word.now }
{
    match word {
        b"list" => Some(Job::List),
        b"help" => Some(Job::Help),
        _ => None,
    }
}

pub(crate) fn flag_named(word: &[u8]) -> Option<Flag>
    ensures { result ≡ flag_named word.now }
{
    match word {
        b"--statements" => Some(Flag::Number(Limit::Statements)),
        b"--variables" => Some(Flag::Number(Limit::Variables)),
        b"--sweeps" => Some(Flag::Number(Limit::Sweeps)),
        b"--kind" => Some(Flag::Kind),
        b"--explain" => Some(Flag::Explain),
        _ => None,
    }
}

pub(crate) fn kind_named(word: &[u8]) -> Option<SetKind>
    ensures { result ≡ kind_named word.now }
{
    match word {
        b"interval" => Some(SetKind::Interval),
        b"list" => Some(SetKind::List),
        _ => None,
    }
}
