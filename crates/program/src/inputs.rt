// Inputs by their position among all inputs.
ghost use Rattle.std.specs.Prelude.{◌≡◌, ◌<◌, length, IfSome};
ghost use Rattle.program.specs.Model.{input_from, is_int};

use syntax::record::{Class, Constant, Variable};

// Whether a variable with this initial value is an INT.
pub(crate) fn is_int(initial: Constant) -> bool
    ensures { result ≡ is_int initial }
{
    matches!(initial, Constant::Int(_))
}

// Which variable is the input at a position from 0 among all inputs.
pub(crate) fn input_at(variables: &[Variable], position: usize) -> Option<usize>
    ensures is { result ≡ input_from 0 variables.now position }
    ensures within { IfSome result (λ i. i < length variables.now) }
{
    // a loop, which ends at the input: `nth` of a chain of `enumerate`, `filter` and `map` took half as many instructions more
    let mut left = position;
    for (index, variable) in variables.iter().enumerate() {
        if variable.declaration().class == Class::Input {
            if left == 0 {
                return Some(index);
            }
            left -= 1;
        }
    }
    None
}
