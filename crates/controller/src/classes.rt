// How many variables have a class.
ghost use Rattle.std.specs.Prelude.{◌≡◌};
ghost use Rattle.controller.specs.Lists.{class_count};

use syntax::record::{Class, Variable};

pub(crate) fn count_class(variables: &[Variable], class: Class) -> usize
    ensures { result ≡ class_count class variables.now }
{
    variables
        .iter()
        .filter(|v| v.declaration().class == class)
        .count()
}
