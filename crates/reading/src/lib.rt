// How a text becomes the records of a program, or is refused.
#![tactic(auto)]

pub mod draft;
pub mod fault;
pub mod fill;
pub mod names;
mod statement;
mod targets;
