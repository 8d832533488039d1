// The calls carried out, each with its line behind the text.
ghost use Rattle.std.specs.Prelude.{◌≡◌, OnOk};
ghost use Rattle.controller.specs.Machine.{code_of};
ghost use Rattle.script.specs.declared.pending.Act.TheVariants.{Call};
ghost use Rattle.script.specs.Course.{closed, ordered, course_of, Stays};

use super::Carrier;
use crate::calls::{restart, scan, start, step};
use crate::order::Order;
use crate::pending::Pending;
use domain::Domain;
use std::alloc::AllocError;

impl<D: Domain> Carrier<'_, D> {
    // A start or a scan whose list has ended.
    pub(crate) fn finish(&mut self, pending: Pending) -> Result<(), AllocError>
        ensures course { OnOk result (course_of self.new ≡ closed D.ops (code_of self.old.controller) self.old.cells.now pending (course_of self.old)) }
        ensures stays { Stays self.old self.new }
    {
        match pending {
            Pending::Ranges | Pending::Nothing => Ok(()),
            Pending::Start => {
                let line = start(&mut self.controller, &self.numbers);
                write!(self.output, "{line}")
            }
            Pending::Scan => {
                let line = scan(&mut self.controller, self.cells, &self.numbers);
                write!(self.output, "{line}")
            }
        }
    }

    // A call that ends with its name; a start or a scan waits for its list.
    pub(crate) fn carry_out(&mut self, order: Order) -> Result<(), AllocError>
        ensures course { OnOk result (course_of self.new ≡ ordered D.ops (code_of self.old.controller) self.old.cells.now (Call order) (course_of self.old)) }
        ensures stays { Stays self.old self.new }
    {
        self.numbers.clear();
        match order {
            Order::Start | Order::Scan => Ok(()),
            Order::Step => {
                let line = step(&mut self.controller, self.cells);
                write!(self.output, "{line}")
            }
            Order::Restart => {
                let line = restart(&mut self.controller);
                write!(self.output, "{line}")
            }
            Order::Read => self.read(),
        }
    }
}
