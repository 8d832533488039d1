// How the words of a command line make a request.
ghost use Rattle.std.specs.Prelude.{◌≡◌};
ghost use Rattle.options.specs.Line.{most_files, with_number, flag_named, flag_taken, file_taken, taken, finished, parsed};

use crate::names::{flag_named, is_option, job_named, kind_named};
use crate::request::{Flag, Job, Limit, Options, Progress, Request, SetKind, Stage, WrongUse};
use crate::value::value_for;

const START: Progress = Progress {
    stage: Stage::Begin,
    request: Request {
        job: Job::List,
        options: Options {
            statements: 64,
            variables: 15,
            sweeps: 100,
            kind: SetKind::Interval,
            explain: false,
        },
        files: 0,
    },
};

fn most_files(job: Job) -> usize
    ensures { result ≡ most_files job }
{
    match job {
        Job::List => 1,
        Job::Help => 0,
    }
}

fn with_number(options: Options, limit: Limit, value: usize) -> Options
    ensures { result ≡ with_number options limit value }
{
    match limit {
        Limit::Statements => Options {
            statements: value,
            ..options
        },
        Limit::Variables => Options {
            variables: value,
            ..options
        },
        Limit::Sweeps => Options {
            sweeps: value,
            ..options
        },
    }
}

// A word that begins with two hyphens.
fn take_flag(mut request: Request, word: &[u8]) -> Result<Progress, WrongUse>
    ensures { result ≡ flag_taken request (flag_named word.now) }
{
    let stage = match flag_named(word).ok_or(WrongUse::UnknownOption)? {
        Flag::Number(limit) => Stage::Number(limit),
        Flag::Kind => Stage::Kind,
        Flag::Explain => {
            request.options.explain = true;
            Stage::Options
        }
    };
    Ok(Progress { stage, request })
}

// Any other word where a file may come.
fn take_file(request: Request) -> Result<Progress, WrongUse>
    ensures { result ≡ file_taken request }
{
    if request.files < most_files(request.job) {
        Ok(Progress {
            stage: Stage::Files,
            request: Request {
                files: request.files + 1,
                ..request
            },
        })
    } else {
        Err(WrongUse::TooManyFiles)
    }
}

// What one word more makes of a line.
fn take(progress: Progress, word: &[u8]) -> Result<Progress, WrongUse>
    ensures { result ≡ taken progress word.now }
{
    let mut request = progress.request;
    match progress.stage {
        Stage::Begin | Stage::Options if is_option(word) => return take_flag(request, word),
        Stage::Files if is_option(word) => return Err(WrongUse::OptionAfterFile),
        Stage::Options | Stage::Files => return take_file(request),
        Stage::Begin => request.job = job_named(word).ok_or(WrongUse::UnknownJob)?,
        Stage::Number(limit) => {
            let value = value_for(limit, word).ok_or(WrongUse::BadValue)?;
            request.options = with_number(request.options, limit, value);
        }
        Stage::Kind => request.options.kind = kind_named(word).ok_or(WrongUse::BadValue)?,
    }
    Ok(Progress {
        stage: Stage::Options,
        request,
    })
}

// The request of a line that ends here.
fn finish(progress: Progress) -> Result<Request, WrongUse>
    ensures { result ≡ finished progress }
{
    match progress.stage {
        Stage::Number(_) | Stage::Kind => Err(WrongUse::NoValue),
        _ => Ok(progress.request),
    }
}

// What the words of a command line, after the program's name, ask for.
pub fn parse(words: &[String]) -> Result<Request, WrongUse>
    ensures { result ≡ parsed words.now }
{
    let mut progress = START;
    for word in words {
        progress = take(progress, word.as_bytes())?;
    }
    finish(progress)
}
