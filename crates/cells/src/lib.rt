// The values that a controller works on, and cells that allow some of them.
#![tactic(auto)]

pub mod cell;
pub mod value;
