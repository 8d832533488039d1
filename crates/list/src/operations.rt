// Operations on two INTs: the result inside INT, if there is one.
ghost use Rattle.std.specs.Prelude.{◌≡◌};
ghost use Rattle.list.specs.Operations.{sum, difference, product, quotient};

use numbers::Int;

pub(crate) fn sum(a: Int, b: Int) -> Option<Int>
    ensures { result ≡ sum a b }
{
    a.checked_add(b)
}

pub(crate) fn difference(a: Int, b: Int) -> Option<Int>
    ensures { result ≡ difference a b }
{
    a.checked_sub(b)
}

pub(crate) fn product(a: Int, b: Int) -> Option<Int>
    ensures { result ≡ product a b }
{
    a.checked_mul(b)
}

// The quotient drops its fraction; a divisor 0 gives none.
pub(crate) fn quotient(a: Int, b: Int) -> Option<Int>
    ensures { result ≡ quotient a b }
{
    a.checked_div(b)
}
