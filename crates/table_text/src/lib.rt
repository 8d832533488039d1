// The text of a table, read into the caller's cells.
#![tactic(auto)]

pub mod fault;
mod gaps;
mod progress;
mod take;
pub mod text;

pub use fault::TableFault;
pub use text::read_table;
