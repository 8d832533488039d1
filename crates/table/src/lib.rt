// Tables: one row of cells for each statement, row after row in the caller's cells.
#![tactic(auto)]

pub mod growing;
pub mod rows;
pub mod table;
