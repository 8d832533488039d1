// What a controller is at.
use meaning::compute::Cause;

#[derive(Clone, Copy, PartialEq, Eq, Debug)]
pub enum Phase {
    // for a scan to start
    Waiting,
    // before a statement
    Running,
    // at the statement that stopped it, and why; without a cause where its program has no statement
    Stopped(Option<Cause>),
}
