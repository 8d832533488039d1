// One slot of a table read or changed.
ghost use Rattle.std.specs.Prelude.{◌≡◌, set as changed_at, slice_index_or};
ghost use Rattle.cells.specs.declared.value.Value.TheVariants.{Unset};
ghost use Rattle.meaning.specs.Meaning.{stored};
ghost use Rattle.controller.specs.Registers.{values_in};

use crate::slot::Slot;
use cells::value::Value;
use meaning::compute::{negate, truth};
use syntax::operator::Store;

// The value of a slot; unset where there is none.
pub(crate) fn read(slots: &[Slot], index: usize) -> Value
    ensures { result ≡ slice_index_or (values_in slots.now) index Unset }
{
    slots.get(index).map_or(Value::Unset, |slot| slot.value())
}

// A value into a slot, if there is one.
pub(crate) fn store(slots: &mut [Slot], index: usize, value: Value)
    ensures { values_in slots.new ≡ changed_at (values_in slots.old) index value }
{
    // by index: after a loan by get_mut a proof knows the length of the slots, and none of their values
    if index < slots.len() {
        slots[index].store(value);
    }
}

// ST writes the current result, STN its opposite; S and R write TRUE or FALSE, only while it is TRUE.
pub(crate) fn change(slots: &mut [Slot], index: usize, by: Store, cr: Value)
    ensures { values_in slots.new ≡ stored by index (record { cr = cr; values = values_in slots.old }) }
{
    if index < slots.len() {
        let slot = &mut slots[index];
        match by {
            Store::St => slot.store(cr),
            Store::Stn => slot.store(negate(cr)),
            Store::Set if truth(cr) => slot.set(),
            Store::Reset if truth(cr) => slot.reset(),
            _ => {}
        }
    }
}
