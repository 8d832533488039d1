// Output numbers: how many there are, and what they show.
ghost use Rattle.std.specs.Prelude.{◌≡◌};
ghost use Rattle.controller.specs.Lists.{output_count, shown_as};

use crate::classes::count_class;
use cells::value::Value;
use syntax::record::{Class, Variable};

// How many outputs there are.
pub fn count_outputs(variables: &[Variable]) -> usize
    ensures { result ≡ output_count variables.now }
{
    count_class(variables, Class::Output)
}

// The number that an output shows.
pub(crate) fn show(value: Value) -> i32
    ensures { result ≡ shown_as value }
{
    match value {
        Value::Unset => 0,
        Value::Bool(b) => i32::from(b),
        Value::Int(n) => i32::from(n),
    }
}
