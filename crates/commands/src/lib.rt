// The jobs: what each answers, as text, and the sheets that two of them print.
#![tactic(auto)]

pub mod answer;
pub mod checking;
mod explain;
pub mod fault;
pub mod help;
mod judging;
mod lines;
mod listing;
pub mod position;
pub mod running;
mod sentences;
pub mod sheets;
pub mod spelling;
