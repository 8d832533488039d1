// A script: calls of a controller, carried out as they are read, and a line for each.
#![tactic(auto)]

mod calls;
mod carrier;
pub mod fault;
mod line;
mod order;
mod pending;
pub mod run;

pub use fault::ScriptFault;
pub use run::run_calls;
