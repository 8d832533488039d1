// A controller that has counted all the steps it can.
use super::Controller;
use crate::call::{Call, Sight};
use crate::counts::tests::one_left;
use crate::fault::CallFault;
use program::Program;
use std::process::Abort;
use syntax::record::{Statement, Variable};
use transfer::marks::Marks;

// A step beside a table of so many cells that covers everything.
fn step(controller: &mut Controller, size: usize) -> Result<(), CallFault> {
    let marks = Marks {
        overflow: true,
        zero_divisor: true,
        kind: true,
        unreachable: false,
    };
    controller.dispatch(
        Call::Step(Sight {
            size,
            covered: true,
            marks,
        }),
        &mut [],
    )
}

fn runs_full(rt: &impl Abort, program: &Program) {
    let mut controller = Controller::new(program);
    controller.counts = one_left();
    assert_eq!(rt; controller.start(&[]), Ok(()));
    assert_eq!(rt; step(&mut controller, 2), Ok(()));
    assert_eq!(rt; step(&mut controller, 3), Err(CallFault::WrongSize(2)));
    assert_eq!(rt; step(&mut controller, 2), Err(CallFault::StepsFull(1)));
    assert_eq!(rt; controller.counts().steps(), 4_294_967_295);
    controller.restart();
    assert_eq!(rt; controller.start(&[]), Ok(()));
    assert_eq!(rt; step(&mut controller, 2), Err(CallFault::StepsFull(0)));
}

#[test]
fn steps_after_the_last(rt: HostRuntime) {
    let mut variables = [Variable::BLANK; 1];
    let mut statements = [Statement::BLANK; 2];
    runs_full(
        &rt,
        &Program::read(b"LD 1 RET", &mut variables, &mut statements),
    );
}
