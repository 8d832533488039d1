// The calls that a script can name.
ghost use Rattle.std.specs.Prelude.{◌≡◌};
ghost use Rattle.script.specs.Orders.{order_named};

#[derive(Clone, Copy)]
pub enum Order {
    // starts a scan with the numbers that follow
    Start,
    // starts a scan, and takes steps until it ends
    Scan,
    Step,
    Restart,
    Read,
}

// An Option says all: TryFrom would want an error type beside it.
pub(crate) fn order_named(word: &[u8]) -> Option<Order>
    ensures { result ≡ order_named word.now }
{
    match word {
        b"start" => Some(Order::Start),
        b"scan" => Some(Order::Scan),
        b"step" => Some(Order::Step),
        b"restart" => Some(Order::Restart),
        b"read" => Some(Order::Read),
        _ => None,
    }
}
