// What the logical operators make of two truths.
ghost use Rattle.std.specs.Prelude.{◌≡◌};
ghost use Rattle.meaning.specs.Meaning.{combined};

use syntax::operator::Operator;

// The truth that a logical operator gives; FALSE for any other operator.
pub fn combine(operator: Operator, left: bool, right: bool) -> bool
    ensures { result ≡ combined operator left right }
{
    match operator {
        Operator::And => left && right,
        Operator::Andn => left && !right,
        Operator::Or => left || right,
        Operator::Orn => left || !right,
        Operator::Xor => left != right,
        Operator::Xorn => left == right,
        _ => false,
    }
}
