// What a command line can ask for.

#[derive(Clone, Copy)]
pub enum Job {
    // lists a program as it was read
    List,
    // says how the program is used
    Help,
}

// The number sets of which a table is made.
#[derive(Clone, Copy)]
pub enum SetKind {
    Interval,
    List,
}

// An option that takes a number.
#[derive(Clone, Copy)]
pub enum Limit {
    Statements,
    Variables,
    Sweeps,
}

// An option by its name.
#[derive(Clone, Copy)]
pub enum Flag {
    Number(Limit),
    Kind,
    Explain,
}

#[derive(Clone, Copy)]
pub struct Options {
    // places for statements, and for variables
    pub statements: usize,
    pub variables: usize,
    pub sweeps: usize,
    pub kind: SetKind,
    pub explain: bool,
}

// A job with its options; the last words of the line, this many, are its files.
#[derive(Clone, Copy)]
pub struct Request {
    pub job: Job,
    pub options: Options,
    pub files: usize,
}

// Why a line asks for nothing.
#[derive(Clone, Copy)]
pub enum WrongUse {
    UnknownJob,
    UnknownOption,
    // a value that is no number, or above its most, or no kind of set
    BadValue,
    // an option at the end of the line that takes a value
    NoValue,
    OptionAfterFile,
    TooManyFiles,
}

// How far a line has come.
#[derive(Clone, Copy)]
pub enum Stage {
    // before the first word
    Begin,
    // where an option or a file may come
    Options,
    // after an option that takes a number
    Number(Limit),
    // after the option that takes a kind of set
    Kind,
    // after a file
    Files,
}

#[derive(Clone, Copy)]
pub struct Progress {
    pub stage: Stage,
    pub request: Request,
}
