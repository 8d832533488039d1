// What each statement does to values, and when it stops: the one meaning that running, carrying and marking share.
#![tactic(auto)]

pub mod accepts;
pub mod compute;
pub mod edge;
pub mod source;
pub mod truths;
