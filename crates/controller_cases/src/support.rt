// What the cases share.
use cells::cell::Cell;
use controller::{CallFault, Controller, Phase};
use interval::Interval;
use meaning::compute::Cause;

// A cell that allows everything, and one that allows nothing.
pub(crate) const ALL: Cell<Interval> = Cell {
    unset: true,
    can_be_false: true,
    can_be_true: true,
    numbers: Interval {
        low: -32768,
        high: 32767,
    },
};

pub(crate) const NOTHING: Cell<Interval> = Cell {
    unset: false,
    can_be_false: false,
    can_be_true: false,
    numbers: Interval { low: 1, high: 0 },
};

// Waiting 0, running 1, stopped for a kind 4, a divisor 0 2 or an overflow 3, and 5 without a cause; and the statement.
pub(crate) fn state(controller: &Controller) -> (u8, usize) {
    let phase = match controller.phase() {
        Phase::Waiting => 0,
        Phase::Running => 1,
        Phase::Stopped(Some(Cause::Kind)) => 4,
        Phase::Stopped(Some(Cause::ZeroDivisor)) => 2,
        Phase::Stopped(Some(Cause::Overflow)) => 3,
        Phase::Stopped(None) => 5,
    };
    (phase, controller.at())
}

// The number and the place of a refusal; 0 and 0 where there is none.
pub(crate) fn refusal(answer: Result<(), CallFault>) -> (u8, usize) {
    match answer {
        Ok(()) => (0, 0),
        Err(fault) => (fault.number(), fault.place()),
    }
}

pub(crate) fn counts(controller: &Controller) -> (u32, u32, u32) {
    let counts = controller.counts();
    (counts.steps(), counts.outside(), counts.unmarked())
}
