// Where the operand of an operation comes from.
ghost use Rattle.std.specs.Prelude.{◌≡◌};
ghost use Rattle.meaning.specs.Meaning.{kind_value, source_of};

use cells::value::Value;
use syntax::operator::Store;
use syntax::record::{Operand, Operation, Variable};

#[derive(Clone, Copy, PartialEq, Eq, Debug)]
pub enum Source {
    // a value that the program fixes
    Value(Value),
    // what the variable at an index holds
    Variable(usize),
}

// A value of the kind that a variable is declared with.
fn kind_value(variables: &[Variable], index: usize) -> Value
    ensures { result ≡ kind_value variables.now index }
{
    let variable = variables.get(index).copied().unwrap_or(Variable::BLANK);
    Value::from(variable.declaration().initial)
}

// The source of an operation's operand, unset where it has none. ST and STN look at the variable's declared kind, S and R at what it holds.
pub fn operand_source(variables: &[Variable], operation: Operation) -> Source
    ensures { result ≡ source_of variables.now operation }
{
    match operation {
        Operation::Apply(_, Operand::Constant(constant)) => Source::Value(Value::from(constant)),
        Operation::Apply(_, Operand::Variable(index))
        | Operation::Store(Store::Set | Store::Reset, index) => Source::Variable(index),
        Operation::Store(_, index) => Source::Value(kind_value(variables, index)),
        _ => Source::Value(Value::Unset),
    }
}
