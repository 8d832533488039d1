// A program in the making.
ghost use Rattle.reading.specs.Drafts.{Fits};

use syntax::grammar::Stage;
use syntax::record::{Statement, Variable};

mod apply;
mod making;

// The stage that the text has come to, and how many records are in use.
#[derive(Clone, Copy)]
pub struct Progress {
    pub stage: Stage,
    pub variables: usize,
    pub statements: usize,
}

// How many records a program uses.
#[derive(Clone, Copy)]
pub struct Extent {
    pub variables: usize,
    pub statements: usize,
}

// A text, and the caller's records with what its words have put there so far.
// Counts stand beside the slices, since the records lie in the caller's memory and are filled in place.
#[derive(Drop)]
pub(crate) struct Draft<'t, 'r> {
    text: &'t [u8],
    variables: &'r mut [Variable],
    statements: &'r mut [Statement],
    progress: Progress,
    ghost fits: { Fits progress variables.now statements.now },
}
