// Input numbers: how many there have to be, which of them their inputs take, and what they stand for.
ghost use Rattle.std.specs.Prelude.{◌≡◌, length, pos, slice_index_or};
ghost use Rattle.controller.specs.Lists.{input_count, between as is_between, takes as takes_number, value_for, first_bad, entered};

use crate::classes::count_class;
use cells::value::Value;
use numbers::{Int, fit};
use syntax::record::{Class, Constant, Variable};

// How many inputs there are.
pub(crate) fn count_inputs(variables: &[Variable]) -> usize
    ensures { result ≡ input_count variables.now }
{
    count_class(variables, Class::Input)
}

// The number at a position, 0 past the last.
pub(crate) fn number_at(numbers: &[i32], position: usize) -> i32
    ensures { result ≡ slice_index_or numbers.now position (pos 0) }
{
    numbers.get(position).copied().unwrap_or(0)
}

fn between(low: Int, high: Int, number: i32) -> bool
    ensures { result ≡ is_between low high number }
{
    // two comparisons: what `contains` of a range of i32 says is not proved to be this clause
    i32::from(low) <= number && number <= i32::from(high)
}

// Whether an input takes a number: a BOOL 0 and 1, an INT those of its range.
fn takes(variable: &Variable, number: i32) -> bool
    ensures { result ≡ takes_number variable.now.declaration.initial variable.now number }
{
    match variable.declaration().initial {
        Constant::Bool(_) => between(0, 1, number),
        Constant::Int(_) => between(variable.range().low, variable.range().high, number),
    }
}

// The position of the first number that its input does not take; there is one for each input.
pub(crate) fn first_bad(variables: &[Variable], numbers: &[i32]) -> Option<usize>
    requires { length numbers.now ≡ input_count variables.now }
    ensures { result ≡ first_bad numbers.now 0 variables.now }
{
    let inputs = variables
        .iter()
        .filter(|v| v.declaration().class == Class::Input);
    inputs
        .zip(numbers)
        .position(|(v, number)| !takes(v, *number))
}

// The value that a number stands for.
fn value_for(initial: Constant, number: i32) -> Value
    ensures { result ≡ value_for initial number }
{
    match initial {
        Constant::Bool(_) => Value::Bool(number == 1),
        Constant::Int(_) => fit(number).map_or(Value::Unset, Value::Int),
    }
}

// The value of a variable when a scan starts with a number: an input's is that of the number, the others keep theirs.
pub(crate) fn enter(variable: &Variable, number: i32, value: Value) -> Value
    ensures { result ≡ entered variable.now number value }
{
    if variable.declaration().class == Class::Input {
        value_for(variable.declaration().initial, number)
    } else {
        value
    }
}
