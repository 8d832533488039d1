// The search for a table that passes the check: sweeps up to a fixpoint.
#![tactic(auto)]

mod bring;
mod changes;
pub mod fault;
pub mod settling;
pub mod sweep;

pub use fault::SettleFault;
pub use settling::{settle, settling_is_sound};
