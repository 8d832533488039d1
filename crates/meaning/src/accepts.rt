// Which sorts of values each operation accepts.
ghost use Rattle.std.specs.Prelude.{◌≡◌};
ghost use Rattle.meaning.specs.Meaning.{accepts_operator, accepts_store, accepts_jump, accepted};

use cells::value::Sort;
use syntax::operator::{Jump, Operator, Store};
use syntax::record::Operation;

fn accepts_operator(operator: Operator, left: Sort, right: Sort) -> bool
    ensures { result ≡ accepts_operator operator left right }
{
    match operator {
        Operator::Ld => true,
        Operator::Ldn => right == Sort::Bool,
        Operator::And
        | Operator::Andn
        | Operator::Or
        | Operator::Orn
        | Operator::Xor
        | Operator::Xorn => { left == Sort::Bool && right == Sort::Bool }
        _ => left == Sort::Int && right == Sort::Int,
    }
}

fn accepts_store(store: Store, left: Sort, right: Sort) -> bool
    ensures { result ≡ accepts_store store left right }
{
    match store {
        Store::St => left == right && left != Sort::Unset,
        _ => left == Sort::Bool && right == Sort::Bool,
    }
}

fn accepts_jump(jump: Jump, left: Sort) -> bool
    ensures { result ≡ accepts_jump jump left }
{
    match jump {
        Jump::Jmp => true,
        _ => left == Sort::Bool,
    }
}

// Whether an operation accepts a current result of one sort and an operand of another; ST and STN take the variable's kind for its operand's.
pub fn accepts(operation: Operation, left: Sort, right: Sort) -> bool
    ensures { result ≡ accepted operation left right }
{
    match operation {
        Operation::Return | Operation::Label(_) => true,
        Operation::Not => left == Sort::Bool,
        Operation::Apply(operator, _) => accepts_operator(operator, left, right),
        Operation::Store(store, _) => accepts_store(store, left, right),
        Operation::Jump(jump, _) => accepts_jump(jump, left),
    }
}
