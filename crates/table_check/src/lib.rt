// The check of a table, and the sheet that it hands out.
#![tactic(auto)]

pub mod fault;
mod judged;
mod marking;
mod places;
mod rows;
pub mod sheet;
mod starting;
