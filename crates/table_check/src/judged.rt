// A program and a table of its size, which the check judges and whose rows a sheet shows.
ghost use Rattle.std.specs.Prelude.{◌≡◌, ◌*◌, ◌≤◌, length};
ghost use Rattle.reading.specs.Formed.{Whole};
ghost use Rattle.transfer.specs.Rows.{width};

use cells::cell::Cell;
use syntax::record::{Statement, Variable};

#[derive(Drop)]
pub(crate) struct Judged<'c, 'p, D> {
    pub(crate) variables: &'p [Variable],
    pub(crate) statements: &'p [Statement],
    pub(crate) cells: &'c [Cell<D>],
    ghost few: { length variables.now ≤ 64 },
    ghost short: { length statements.now ≤ 1024 },
    ghost whole: { Whole (length variables.now) statements.now },
    ghost sized: { length cells.now ≡ length statements.now * width variables.now },
}
