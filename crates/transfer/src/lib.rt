// Carrying a row of cells along a statement, and the marks of a row.
#![tactic(auto)]

pub mod apply;
pub mod carry;
pub mod marks;
pub mod operand;
pub mod rows;
pub mod soundness;
