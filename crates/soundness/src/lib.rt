// What a table that passes promises of every controller that runs beside it.
#![tactic(auto)]

pub mod judge;
pub mod promise;
