// What the cases share.
use cells::cell::Cell;
use fixpoint::SettleFault;
use interval::Interval;
use list::NumberList;

pub(crate) const DIVIDE: &str =
    "VAR_INPUT n: INT; END_VAR VAR_OUTPUT per: INT; END_VAR LD 96 DIV n ST per RET";

// Counts up without an end inside a scan.
pub(crate) const COUNT: &str =
    "VAR_OUTPUT s: INT; END_VAR again: LD s ADD 1 ST s LT 100 JMPC again RET";

// The two statements before the label are never reached.
pub(crate) const SKIP: &str = "VAR_OUTPUT s: INT; END_VAR JMP end LD 1 ST s end: LD 7 ST s RET";

pub(crate) const ALL: Cell<Interval> = Cell {
    unset: true,
    can_be_false: true,
    can_be_true: true,
    numbers: Interval {
        low: -32768,
        high: 32767,
    },
};

pub(crate) const EVERYTHING: Cell<NumberList> = Cell {
    unset: true,
    can_be_false: true,
    can_be_true: true,
    numbers: NumberList::Everything,
};

// The sweeps that a table took, or the number and the place of a refusal.
pub(crate) fn told(answer: Result<u16, SettleFault>) -> (u8, usize) {
    match answer {
        Ok(sweeps) => (0, sweeps as usize),
        Err(fault) => (fault.number(), fault.place()),
    }
}

// The flags of a cell: unset 4, FALSE 2, TRUE 1.
fn flags(unset: bool, can_be_false: bool, can_be_true: bool) -> u8 {
    let u = if unset { 4 } else { 0 };
    let f = if can_be_false { 2 } else { 0 };
    let t = if can_be_true { 1 } else { 0 };
    u + f + t
}

pub(crate) fn parts(cell: Cell<Interval>) -> (u8, i16, i16) {
    (
        flags(cell.unset, cell.can_be_false, cell.can_be_true),
        cell.numbers.low,
        cell.numbers.high,
    )
}

// The flags, whether it is everything, how many numbers there are and the first of them.
pub(crate) fn list_parts(cell: Cell<NumberList>) -> (u8, bool, u8, i16) {
    let flags = flags(cell.unset, cell.can_be_false, cell.can_be_true);
    match cell.numbers {
        NumberList::Everything => (flags, true, 0, 0),
        NumberList::Numbers { count, numbers } => (flags, false, count, numbers[0]),
    }
}
