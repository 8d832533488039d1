// Reads a program's text and its ranges, and prints what the job on the command line answers.
#![tactic(auto)]

use commands::answer::{Answer, list};
use commands::help::USAGE;
use options::parse;
use options::request::{Job, Options, WrongUse};
use std::alloc::AllocError;
use std::io::Read;
use std::process::ExitCode;
use std::{env, fs, io};

fn arguments(rt: &HostRuntime) -> io::Result<Vec<String>> {
    let mut words = Vec::new(rt.alloc());
    for word in env::args(rt)?.skip(1) {
        words.push(word)?;
    }
    Ok(words)
}

fn standard_input(rt: &HostRuntime) -> io::Result<Vec<u8>> {
    let mut bytes = Vec::new(rt.alloc());
    let mut stdin = rt.stdin();
    stdin.read_to_end(&mut bytes)?;
    Ok(bytes)
}

// Why the program ends without what was asked for.
#[derive(Clone, Copy)]
enum Failure {
    // the line asks for nothing, or for a file that can't be read: the usage is printed
    WrongUse,
    // what there is to say has been said, so it is told by the status alone
    Told,
}

impl From<WrongUse> for Failure {
    fn from(_fault: WrongUse) -> Failure {
        Failure::WrongUse
    }
}

impl From<io::Error> for Failure {
    fn from(_error: io::Error) -> Failure {
        Failure::Told
    }
}

impl From<AllocError> for Failure {
    fn from(_error: AllocError) -> Failure {
        Failure::Told
    }
}

// The file that the line names, the last word; `station.il` where it names none.
fn file_name(words: &[String], files: usize) -> &str {
    match words.last() {
        Some(word) if files > 0 => word.as_str(),
        _ => "station.il",
    }
}

fn read_file(rt: &HostRuntime, file: &str) -> Result<Vec<u8>, Failure> {
    match fs::read(rt, file) {
        Ok(text) => Ok(text),
        Err(_) => {
            eprintln!(rt; "hethumsi: {file} can't be read")?;
            Err(Failure::WrongUse)
        }
    }
}

fn print_answer(rt: &HostRuntime, answer: &Answer) -> Result<(), Failure> {
    let output = answer.output.as_str();
    let note = answer.note.as_str();
    print!(rt; "{output}")?;
    eprint!(rt; "{note}")?;
    match answer.refusal {
        Some(_) => Err(Failure::Told),
        None => Ok(()),
    }
}

fn run_list(rt: &HostRuntime, options: Options, file: &str) -> Result<(), Failure> {
    let text = read_file(rt, file)?;
    let input = standard_input(rt)?;
    let answer = list(rt.alloc(), options, &text, &input)?;
    print_answer(rt, &answer)
}

fn print_usage(rt: &HostRuntime) -> Result<(), Failure> {
    print!(rt; "{USAGE}")?;
    Ok(())
}

fn run(rt: &HostRuntime) -> Result<(), Failure> {
    let words = arguments(rt).map_err(|_| Failure::WrongUse)?;
    let request = parse(&words)?;
    match request.job {
        Job::Help => print_usage(rt),
        Job::List => run_list(rt, request.options, file_name(&words, request.files)),
    }
}

fn main(rt: HostRuntime) -> ExitCode {
    match run(&rt) {
        Ok(()) => ExitCode::SUCCESS,
        Err(Failure::WrongUse) => {
            let _ = eprint!(rt; "{USAGE}");
            ExitCode::FAILURE
        }
        Err(Failure::Told) => ExitCode::FAILURE,
    }
}
