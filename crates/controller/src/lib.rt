// A controller: it runs a program call by call, and counts what a table did not foresee.
#![tactic(auto)]

mod call;
mod classes;
pub mod controller;
pub mod counts;
pub mod fault;
mod inputs;
mod outputs;
pub mod phase;
mod registers;
mod slot;

pub use controller::Controller;
pub use counts::Counts;
pub use fault::CallFault;
pub use outputs::count_outputs;
pub use phase::Phase;
