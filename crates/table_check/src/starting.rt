// The start row, as a row that is carried: the inputs are given anew to a program that has no row yet.
ghost use Rattle.std.specs.Prelude.{◌≡◌, []};
ghost use Rattle.transfer.specs.declared.carry.Change.TheVariants.{Inputs};
ghost use Rattle.cells.specs.Cells.{of_value};
ghost use Rattle.cells.specs.declared.value.Value.TheVariants.{Unset};

use cells::cell::Cell;
use cells::value::Value;
use domain::Domain;
use transfer::carry::{Carried, Change};

// What comes to statement 0 from no statement.
pub(crate) fn starting<D: Domain>() -> Carried<D>
    ensures { result ≡ record { cr = of_value D.ops Unset; change = Inputs } }
{
    Carried {
        cr: Cell::of_value(Value::Unset),
        change: Change::Inputs,
    }
}
