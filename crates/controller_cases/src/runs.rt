// Programs run from a start, some steps on.
use crate::support::*;
use controller::Controller;
use interval::Interval;
use program::Program;
use syntax::record::{Statement, Variable};

const DIVIDE: &str = "VAR_INPUT n: INT; END_VAR VAR_OUTPUT q: INT; END_VAR LD 96 DIV n ST q RET";

const SUM: &str =
    "VAR_INPUT n: INT; END_VAR VAR_OUTPUT s: INT; END_VAR LD 0 ST s again: LD s ADD n ST s LT 10 JMPC again RET";

const LATCH: &str = "VAR_INPUT b: BOOL; END_VAR VAR_OUTPUT x: BOOL; END_VAR LD b S x LDN b R x RET";

const KINDS: &str = "VAR_INPUT b: BOOL; END_VAR VAR_OUTPUT x: INT; END_VAR LD b ADD 1 RET";

// Reads a text, and runs it.
fn run(
    text: &str,
    number: i32,
    steps: u32,
    size: usize,
    all: bool,
) -> ((u8, usize), (u32, u32, u32), i32) {
    let mut variables = [Variable::BLANK; 8];
    let mut statements = [Statement::BLANK; 16];
    run_program(
        &Program::read(text.as_bytes(), &mut variables, &mut statements),
        number,
        steps,
        size,
        all,
    )
}

// Starts with a number, takes some steps beside a table of so many equal cells, and tells the state, the counts and the output.
fn run_program(
    program: &Program,
    number: i32,
    steps: u32,
    size: usize,
    all: bool,
) -> ((u8, usize), (u32, u32, u32), i32) {
    let mut controller = Controller::new(program);
    let cells = [if all { ALL } else { NOTHING }; 60];
    let mut out = [-1i32; 1];
    let _ = controller.start(&[number]);
    for _ in 0..steps {
        let _ = controller.step(&cells[..size.min(60)]);
    }
    let _ = controller.read_outputs(&mut out);
    (state(&controller), counts(&controller), out[0])
}

#[test]
fn runs(rt: HostRuntime) {
    let cases = [
        (DIVIDE, 5, 4, 12, true, (0, 0), (4, 0, 0), 19),
        (DIVIDE, -7, 4, 12, true, (0, 0), (4, 0, 0), -13),
        (DIVIDE, 5, 3, 12, true, (1, 3), (3, 0, 0), -1),
        (DIVIDE, 0, 4, 12, true, (2, 1), (2, 0, 0), -1),
        (DIVIDE, 5, 4, 12, false, (0, 0), (4, 4, 0), 19),
        (DIVIDE, 0, 4, 12, false, (2, 1), (2, 2, 1), -1),
        (DIVIDE, 5, 4, 11, true, (1, 0), (0, 0, 0), -1),
        (SUM, 4, 21, 27, true, (0, 0), (21, 0, 0), 12),
        (LATCH, 1, 5, 15, true, (0, 0), (5, 0, 0), 1),
        (LATCH, 0, 5, 15, true, (0, 0), (5, 0, 0), 0),
        (KINDS, 1, 3, 9, true, (4, 1), (2, 0, 0), -1),
    ];
    for (text, number, steps, size, all, state, counts, out) in cases {
        assert_eq!(rt; run(text, number, steps, size, all), (state, counts, out));
    }
}

// Three steps and the return, beside a table whose row of DIV says that its divisor is from 1 to 12.
fn run_narrow(program: &Program, number: i32) -> (u32, u32, u32) {
    let mut controller = Controller::new(program);
    let mut cells = [ALL; 12];
    cells[4].numbers = Interval { low: 1, high: 12 };
    let _ = controller.start(&[number]);
    for _ in 0..4 {
        let _ = controller.step(&cells);
    }
    counts(&controller)
}

#[test]
fn beside_a_narrow_table(rt: HostRuntime) {
    for (number, want) in [(5, (4, 0, 0)), (20, (4, 1, 0)), (0, (2, 1, 1))] {
        let mut variables = [Variable::BLANK; 8];
        let mut statements = [Statement::BLANK; 16];
        let program = Program::read(DIVIDE.as_bytes(), &mut variables, &mut statements);
        assert_eq!(rt; run_narrow(&program, number), want);
    }
}
