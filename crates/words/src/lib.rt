// The words of an Instruction List text: names, numbers, `:`, `;` and `:=`, between blanks and comments.
#![tactic(auto)]

mod bytes;
mod reader;
mod scan;
#[cfg(test)]
mod tests;
mod word;

pub use bytes::is_blank;
pub use reader::Reader;
pub use word::{Word, WordFault};
