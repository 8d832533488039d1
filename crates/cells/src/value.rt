// What the current result or a variable holds.
ghost use Rattle.std.specs.Prelude.{◌≡◌};
ghost use Rattle.cells.specs.Values.{sort_of, value_of};

use numbers::Int;
use syntax::record::Constant;

#[derive(Clone, Copy, PartialEq, Eq, Debug)]
pub enum Value {
    Unset,
    Bool(bool),
    Int(Int),
}

// The kind of a value, or that there is none.
#[derive(Clone, Copy, PartialEq, Eq, Debug)]
pub enum Sort {
    Unset,
    Bool,
    Int,
}

// The value that a constant writes.
impl From<Constant> for Value {
    ghost from_gives = { λ constant value. value ≡ value_of constant };

    fn from(constant: Constant) -> Value {
        match constant {
            Constant::Bool(b) => Value::Bool(b),
            Constant::Int(n) => Value::Int(n),
        }
    }
}

impl Value {
    pub fn sort(self) -> Sort
        ensures { result ≡ sort_of self }
    {
        match self {
            Value::Unset => Sort::Unset,
            Value::Bool(_) => Sort::Bool,
            Value::Int(_) => Sort::Int,
        }
    }
}
