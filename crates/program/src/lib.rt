// A program over the caller's records: it comes from a text, takes ranges, and shows its parts.
#![tactic(auto)]

mod inputs;
pub mod lent;

pub use lent::Program;
