// The current result and the table of values.
use crate::slot::Slot;
use cells::value::Value;

pub mod access;
pub mod cover;
pub mod lists;
pub mod perform;

// The first slots are the variables'; the others stay unset. The variables come with each call: the registers are copied, and the slice belongs to the controller that holds both.
#[derive(Clone, Copy)]
pub struct Registers {
    cr: Value,
    slots: [Slot; 64],
}
