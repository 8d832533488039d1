// The command line: which job it asks for, with which options and files.
#![tactic(auto)]

mod line;
mod names;
pub mod request;
mod value;

pub use line::parse;
