// Many values written or shown: initial ones, those that inputs are given, and those of outputs.
ghost use Rattle.std.specs.Prelude.{◌≡◌, ◌+◌, ◌≤◌, length, if◌then◌else◌, slice_set};
ghost use Rattle.cells.specs.declared.value.Value.TheVariants.{Unset};
ghost use Rattle.controller.specs.Registers.{held, values_in};
ghost use Rattle.controller.specs.Lists.{one as one_for, output_count, given, begun, initially, shown_as, shown};

use super::Registers;
use super::access::{read, store};
use crate::inputs::{enter, number_at};
use crate::outputs::show;
use crate::slot::Slot;
use cells::value::Value;
use syntax::record::{Class, Variable};

// The initial values into the variables' slots.
fn write_initial(slots: &mut [Slot], variables: &[Variable])
    ensures { values_in slots.new ≡ begun variables.now (values_in slots.old) }
{
    for (i, variable) in variables.iter().enumerate() {
        store(slots, i, Value::from(variable.declaration().initial));
    }
}

// The numbers into the inputs' slots.
fn write_inputs(slots: &mut [Slot], variables: &[Variable], numbers: &[i32])
    ensures { values_in slots.new ≡ given numbers.now 0 variables.now (values_in slots.old) }
{
    let mut position = 0;
    for (i, variable) in variables.iter().enumerate() {
        let value = enter(variable, number_at(numbers, position), read(slots, i));
        store(slots, i, value);
        position += usize::from(variable.declaration().class == Class::Input);
    }
}

// A variable's value at a place of the list where it is an output, and the place of the next.
fn write_output(out: &mut [i32], place: usize, output: bool, value: Value) -> usize
    requires { place + one_for output ≤ length out.old }
    ensures next { result ≡ place + one_for output }
    ensures out { out.new ≡ (if output then slice_set out.old place (shown_as value) else out.old) }
{
    if output {
        out[place] = show(value);
        place + 1
    } else {
        place
    }
}

// The outputs' values into a list that is as long.
fn write_outputs(slots: &[Slot], variables: &[Variable], out: &mut [i32])
    requires { length out.old ≡ output_count variables.now }
    ensures { out.new ≡ shown variables.now (values_in slots.now) }
{
    let mut place = 0;
    for (i, variable) in variables.iter().enumerate() {
        let output = variable.declaration().class == Class::Output;
        place = write_output(out, place, output, read(slots, i));
    }
}

impl Registers {
    // The variables' initial values, and no current result.
    pub(crate) fn initial(variables: &[Variable]) -> Registers
        ensures { held result ≡ initially variables.now }
    {
        let mut slots = [Slot::UNSET; 64];
        write_initial(&mut slots, variables);
        Registers {
            cr: Value::Unset,
            slots,
        }
    }

    // A scan starts with these numbers.
    pub(crate) fn enter(&mut self, variables: &[Variable], numbers: &[i32])
        ensures { held self.new ≡ record { cr = Unset; values = given numbers.now 0 variables.now (held self.old).values } }
    {
        write_inputs(&mut self.slots, variables, numbers);
        self.cr = Value::Unset;
    }

    // The outputs' values.
    pub(crate) fn show(&self, variables: &[Variable], out: &mut [i32])
        requires { length out.old ≡ output_count variables.now }
        ensures { out.new ≡ shown variables.now (held self.now).values }
    {
        write_outputs(&self.slots, variables, out);
    }
}
