// What each word of a script asks for.
ghost use Rattle.std.specs.Prelude.{◌≡◌};
ghost use Rattle.words.specs.Words.{seen};
ghost use Rattle.script.specs.Words.{number_act, name_act, act_on, pending_after};
ghost use Rattle.script.specs.Orders.{order_named};
ghost use Rattle.numbers.specs.Number.{int_of};

use crate::order::{Order, order_named};
use numbers::Int;
use words::Word;

// What the numbers of a script belong to.
#[derive(Clone, Copy)]
pub enum Pending {
    // the ranges, before the first call
    Ranges,
    // nothing: no number fits
    Nothing,
    // a start, which is carried out when its list ends
    Start,
    // a scan, in the same way
    Scan,
}

#[derive(Clone, Copy)]
pub enum Act {
    // a number of the ranges, which are set before
    Pass,
    Number(Int),
    Call(Order),
    // a name that is no call
    Unknown,
}

fn number_act(pending: Pending, bytes: &[u8]) -> Option<Act>
    ensures { result ≡ number_act pending (int_of bytes.now) }
{
    match (pending, numbers::value(bytes)) {
        (Pending::Ranges, _) => Some(Act::Pass),
        (Pending::Nothing, _) => None,
        (_, number) => number.map(Act::Number),
    }
}

fn name_act(name: &[u8]) -> Act
    ensures { result ≡ name_act (order_named name.now) }
{
    order_named(name).map_or(Act::Unknown, Act::Call)
}

// What a word asks for; none where it does not fit.
pub(crate) fn act_on(pending: Pending, word: Word) -> Option<Act>
    ensures { result ≡ act_on pending (seen word.entry) }
{
    match word {
        Word::Name(name) => Some(name_act(name)),
        Word::Number(bytes) => number_act(pending, bytes),
        _ => None,
    }
}

// What the numbers after a call belong to.
pub(crate) fn pending_after(order: Order) -> Pending
    ensures { result ≡ pending_after order }
{
    match order {
        Order::Start => Pending::Start,
        Order::Scan => Pending::Scan,
        _ => Pending::Nothing,
    }
}
