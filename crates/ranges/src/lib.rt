// The ranges of a program's inputs, as a text writes them: position, low and high of each.
#![tactic(auto)]

pub mod fault;
mod take;
pub mod text;

pub use text::{set_front, set_ranges};
