// The promise at each kind of number sets, and cases worked out once for all.
#![tactic(auto)]

pub mod cases;
pub mod kinds;
