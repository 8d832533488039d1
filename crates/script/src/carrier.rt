// What carries out a script: the controller that it drives beside a table, and the lines so far.
ghost use Rattle.std.specs.Prelude.{◌≡◌};
ghost use Rattle.controller.specs.Lists.{output_count};
ghost use Rattle.controller.specs.Machine.{code_of};

use cells::cell::Cell;
use controller::Controller;
use std::alloc::Global;

pub mod calls;
pub mod making;
pub mod outputs;
pub mod taking;

#[derive(Drop)]
pub struct Carrier<'a, D> {
    heap: Global,
    controller: Controller<'a>,
    cells: &'a [Cell<D>],
    // how many outputs there are
    count: usize,
    // those behind a start or a scan that is carried out when its list ends
    numbers: Vec<i32>,
    output: String,
    ghost counted: { count ≡ output_count (code_of controller).variables },
}
