// The ranges of a program's inputs.
ghost use Rattle.std.specs.Prelude.{◌≡◌, ◌<◌, IfSome};
ghost use Rattle.program.specs.Model.{memory, input_at, ranging, SetAs};

use super::Program;
use crate::inputs::{input_at, is_int};
use numbers::Int;
use reading::fault::RangeFault;
use syntax::record::Range;

impl<'r> Program<'r> {
    // Which variable is the input at a position.
    fn input(&self, position: usize) -> Option<usize>
        ensures is { result ≡ input_at (memory self.now) position }
        ensures within { IfSome result (λ i. i < (memory self.now).variable_count) }
    {
        input_at(self.variables(), position)
    }

    // Sets the range of the INT input at a position from 0 among all inputs; a refusal changes nothing.
    pub fn set_range(&mut self, position: usize, low: Int, high: Int) -> Result<(), RangeFault>
        ensures is { SetAs (ranging (memory self.old) position low high) result self.old self.new }
    {
        let index = self
            .input(position)
            .ok_or(RangeFault::NoIntInput(position))?;
        // a copy is changed and written back: with the element lent in place it was not proved that the program stays formed
        let mut variable = self.variables[index];
        if !is_int(variable.declaration().initial) {
            return Err(RangeFault::NoIntInput(position));
        }
        if low > high {
            return Err(RangeFault::LowAboveHigh(position));
        }
        variable.set_range(Range { low, high });
        self.variables[index] = variable;
        Ok(())
    }
}
