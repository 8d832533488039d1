// A controller for one program, which it borrows: no range can change under it.
ghost use Rattle.std.specs.Prelude.{◌≤◌, length};
ghost use Rattle.reading.specs.Formed.{Whole};

use crate::counts::Counts;
use crate::phase::Phase;
use crate::registers::Registers;
use syntax::record::{Statement, Variable};

pub mod calls;
pub mod making;
pub mod public;
pub mod sight;
pub mod stepping;
#[cfg(test)]
mod tests;

#[derive(Drop)]
pub struct Controller<'p> {
    variables: &'p [Variable],
    statements: &'p [Statement],
    phase: Phase,
    at: usize,
    registers: Registers,
    counts: Counts,
    ghost few: { length variables.now ≤ 64 },
    ghost short: { length statements.now ≤ 1024 },
    ghost whole: { Whole (length variables.now) statements.now },
    ghost near: { at ≤ length statements.now },
}
