// One place of a controller's value table.
ghost use Rattle.std.specs.Prelude.{◌≡◌, true, false};
ghost use Rattle.cells.specs.declared.value.Value.TheVariants.{Bool as truth};

use cells::value::Value;

#[derive(Clone, Copy)]
pub struct Slot {
    value: Value,
}

impl Slot {
    pub const UNSET: Slot = Slot {
        value: Value::Unset,
    };

    pub fn value(&self) -> Value
        ensures { result ≡ self.now.value }
    {
        self.value
    }

    pub fn store(&mut self, value: Value)
        ensures { self.new ≡ record { value = value } }
    {
        self.value = value;
    }

    pub fn set(&mut self)
        ensures { self.new ≡ record { value = truth true } }
    {
        self.value = Value::Bool(true);
    }

    pub fn reset(&mut self)
        ensures { self.new ≡ record { value = truth false } }
    {
        self.value = Value::Bool(false);
    }
}
