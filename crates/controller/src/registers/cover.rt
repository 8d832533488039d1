// Whether a row of cells covers the values.
ghost use Rattle.std.specs.Prelude.{◌≡◌, ◌∷◌, slice_index_or};
ghost use Rattle.std.specs.List.{list_all, enumerate_from};
ghost use Rattle.cells.specs.declared.value.Value.TheVariants.{Unset};
ghost use Rattle.cells.specs.Cells.{covers};
ghost use Rattle.transfer.specs.Rows.{covers_all};
ghost use Rattle.controller.specs.Registers.{held, values_in};

use super::Registers;
use super::access::read;
use crate::slot::Slot;
use cells::cell::Cell;
use cells::value::Value;
use domain::Domain;

// The current result at 0, and the slots' values after it.
fn value_at(cr: Value, slots: &[Slot], index: usize) -> Value
    ensures { result ≡ slice_index_or (cr ∷ values_in slots.now) index Unset }
{
    if index == 0 {
        cr
    } else {
        read(slots, index - 1)
    }
}

// Whether each cell covers its value.
fn covers_row<D: Domain>(row: &[Cell<D>], cr: Value, slots: &[Slot]) -> bool
    ensures { result ≡ list_all (λ p. covers D.ops p.1 (slice_index_or (cr ∷ values_in slots.now) p.0 Unset)) (enumerate_from 0 row.now) }
{
    row.iter()
        .enumerate()
        .all(|(i, cell)| cell.covers(value_at(cr, slots, i)))
}

impl Registers {
    // Whether a row covers the current result and the values.
    pub(crate) fn is_covered<D: Domain>(&self, row: &[Cell<D>]) -> bool
        ensures { result ≡ covers_all D.ops row.now ((held self.now).cr ∷ (held self.now).values) }
    {
        covers_row(row, self.cr, &self.slots)
    }
}
