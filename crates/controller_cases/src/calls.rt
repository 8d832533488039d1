// Calls and refusals in their order.
use crate::support::*;
use controller::Controller;
use program::Program;
use std::process::Abort;
use syntax::record::{Statement, Variable};

const TEXT: &str =
    "VAR_INPUT b: BOOL; n: INT; END_VAR VAR_OUTPUT q: INT; END_VAR LD 7 DIV n ST q RET";

#[test]
fn refusals(rt: HostRuntime) {
    let mut variables = [Variable::BLANK; 8];
    let mut statements = [Statement::BLANK; 16];
    refusals_in_order(
        &rt,
        &Program::read(TEXT.as_bytes(), &mut variables, &mut statements),
    );
}

fn refusals_in_order(rt: &impl Abort, program: &Program) {
    let mut controller = Controller::new(program);
    let cells = [ALL; 16];
    let mut two = [-1i32; 2];
    let mut out = [-1i32; 1];
    assert_eq!(rt; refusal(controller.step(&cells[..15])), (21, 16));
    assert_eq!(rt; refusal(controller.step(&cells)), (23, 0));
    assert_eq!(rt; refusal(controller.read_outputs(&mut two)), (21, 1));
    assert_eq!(rt; refusal(controller.start(&[1])), (14, 2));
    assert_eq!(rt; refusal(controller.start(&[2, 40000])), (14, 0));
    assert_eq!(rt; refusal(controller.start(&[1, 40000])), (14, 1));
    assert_eq!(rt; state(&controller), (0, 0));
    assert_eq!(rt; refusal(controller.start(&[1, 0])), (0, 0));
    assert_eq!(rt; refusal(controller.start(&[1])), (22, 0));
    assert_eq!(rt; refusal(controller.step(&cells)), (0, 0));
    assert_eq!(rt; refusal(controller.step(&cells)), (0, 0));
    assert_eq!(rt; state(&controller), (2, 1));
    assert_eq!(rt; refusal(controller.step(&cells)), (23, 1));
    assert_eq!(rt; refusal(controller.read_outputs(&mut out)), (22, 1));
    assert_eq!(rt; two, [-1, -1]);
    assert_eq!(rt; out, [-1]);
    controller.restart();
    assert_eq!(rt; state(&controller), (0, 0));
    assert_eq!(rt; refusal(controller.read_outputs(&mut out)), (0, 0));
    assert_eq!(rt; out, [0]);
    assert_eq!(rt; counts(&controller), (2, 0, 0));
}

#[test]
fn refused_text(rt: HostRuntime) {
    let mut variables = [Variable::BLANK; 8];
    let mut statements = [Statement::BLANK; 16];
    refuses_all(&rt, &Program::read(b"LD", &mut variables, &mut statements));
}

fn refuses_all(rt: &impl Abort, program: &Program) {
    let mut controller = Controller::new(program);
    let cells = [ALL; 1];
    let mut out = [0i32; 0];
    assert_eq!(rt; state(&controller), (5, 0));
    assert_eq!(rt; refusal(controller.start(&[])), (22, 0));
    assert_eq!(rt; refusal(controller.step(&cells[..0])), (23, 0));
    assert_eq!(rt; refusal(controller.read_outputs(&mut out)), (22, 0));
    controller.restart();
    assert_eq!(rt; state(&controller), (5, 0));
}
