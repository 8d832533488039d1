// The value that an operator gives, or why it stops.
ghost use Rattle.std.specs.Prelude.{◌≡◌, MatchOption};
ghost use Rattle.cells.specs.declared.value.Value.TheVariants.{Int};
ghost use Rattle.meaning.specs.declared.compute.Cause.TheVariants.{Overflow};
ghost use Rattle.meaning.specs.Meaning.{truth_of, number_of, opposite, quotient, arithmetic, compared, computed};

use crate::truths::combine;
use cells::value::Value;
use numbers::Int;
use syntax::operator::Operator;

// Why a statement stops.
#[derive(Clone, Copy, PartialEq, Eq, Debug)]
pub enum Cause {
    // a value of a kind that it does not accept
    Kind,
    // a divisor 0
    ZeroDivisor,
    // a result outside INT
    Overflow,
}

// The truth that a BOOL holds; FALSE for any other value.
pub fn truth(value: Value) -> bool
    ensures { result ≡ truth_of value }
{
    matches!(value, Value::Bool(true))
}

// The number that an INT holds; 0 for any other value.
pub fn number(value: Value) -> Int
    ensures { result ≡ number_of value }
{
    match value {
        Value::Int(n) => n,
        _ => 0,
    }
}

// The opposite of a BOOL.
pub fn negate(value: Value) -> Value
    ensures { result ≡ opposite value }
{
    Value::Bool(!truth(value))
}

// A result, where it lies inside INT.
fn size(res: Option<Int>) -> Result<Value, Cause>
    ensures { MatchOption res (result ≡ Err Overflow) (λ n. result ≡ Ok (Int n)) }
{
    res.map(Value::Int).ok_or(Cause::Overflow)
}

// A quotient, without its fraction.
fn divide(a: Int, b: Int) -> Result<Value, Cause>
    ensures { result ≡ quotient a b }
{
    if b == 0 {
        Err(Cause::ZeroDivisor)
    } else {
        size(a.checked_div(b))
    }
}

// A sum, difference, product or quotient.
fn calculate(operator: Operator, a: Int, b: Int) -> Result<Value, Cause>
    ensures { result ≡ arithmetic operator a b }
{
    match operator {
        Operator::Add => size(a.checked_add(b)),
        Operator::Sub => size(a.checked_sub(b)),
        Operator::Mul => size(a.checked_mul(b)),
        _ => divide(a, b),
    }
}

// A comparison.
fn compare(operator: Operator, a: Int, b: Int) -> bool
    ensures { result ≡ compared operator a b }
{
    match operator {
        Operator::Gt => a > b,
        Operator::Ge => a >= b,
        Operator::Lt => a < b,
        Operator::Le => a <= b,
        Operator::Eq => a == b,
        _ => a != b,
    }
}

// The value that an operator gives from values that it accepts, the current result on the left.
pub fn compute(operator: Operator, left: Value, right: Value) -> Result<Value, Cause>
    ensures { result ≡ computed operator left right }
{
    match operator {
        Operator::Ld => Ok(right),
        Operator::Ldn => Ok(negate(right)),
        Operator::And
        | Operator::Andn
        | Operator::Or
        | Operator::Orn
        | Operator::Xor
        | Operator::Xorn => { Ok(Value::Bool(combine(operator, truth(left), truth(right)))) }
        Operator::Add | Operator::Sub | Operator::Mul | Operator::Div => calculate(
            operator,
            number(left),
            number(right),
        ),
        _ => Ok(Value::Bool(compare(operator, number(left), number(right)))),
    }
}
