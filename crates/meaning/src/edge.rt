// The ways on from a statement.

// To the next statement, or to the target of a jump or a return.
#[derive(Clone, Copy, PartialEq, Eq, Debug)]
pub enum Edge {
    Fall,
    Jump,
}
