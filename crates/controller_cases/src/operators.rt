// Every operator on every pair of kinds, and what it shows where it runs.
use crate::support::*;
use controller::Controller;
use program::Program;
use syntax::record::{Statement, Variable};

// Writes a word and a blank behind what is written.
fn append(text: &mut [u8], length: usize, word: &str) -> usize {
    let bytes = word.as_bytes();
    let mut at = length;
    for i in 0..bytes.len() {
        if at < text.len() {
            text[at] = bytes[i];
            at += 1;
        }
    }
    at.saturating_add(1)
}

// Reads a text, and runs it to its end.
fn run(text: &[u8]) -> (u8, i32) {
    let mut variables = [Variable::BLANK; 4];
    let mut statements = [Statement::BLANK; 8];
    run_program(&Program::read(text, &mut variables, &mut statements))
}

// Whether a scan returns (`r`) or stops for a kind (`k`), and the output.
fn run_program(program: &Program) -> (u8, i32) {
    let mut controller = Controller::new(program);
    let cells = [ALL; 40];
    let steps = program.statements().len().min(8);
    let width = program.variables().len().min(4) + 1;
    let mut out = [-1i32; 1];
    let _ = controller.start(&[]);
    for _ in 0..steps {
        let _ = controller.step(&cells[..(steps * width).min(40)]);
    }
    let _ = controller.read_outputs(&mut out);
    let end = match state(&controller) {
        (0, 0) => b'r',
        (4, _) => b'k',
        _ => b'?',
    };
    (end, out[0])
}

// A current result that is unset, a BOOL or an INT.
fn load(i: usize) -> &'static str {
    match i {
        0 => "",
        1 => "LD TRUE",
        _ => "LD 6",
    }
}

// How an operator ends behind a load.
fn end(load: &str, operator: &str, operand: &str) -> u8 {
    let mut text = [b' '; 160];
    let at = append(&mut text, 0, "VAR b: BOOL := TRUE; n: INT := 2; END_VAR");
    let at = append(&mut text, at, load);
    let at = append(&mut text, at, operator);
    let at = append(&mut text, at, operand);
    let _ = append(&mut text, at, "RET");
    let (end, _) = run(&text);
    end
}

// By the current result, and by the operand: a BOOL, then an INT.
fn ends(operator: &str) -> [u8; 6] {
    let mut got = [0; 6];
    for i in 0..6 {
        got[i] = end(load(i / 2), operator, if i % 2 == 0 { "b" } else { "n" });
    }
    got
}

#[test]
fn pairs_of_kinds(rt: HostRuntime) {
    let cases = [
        ("LD", b"rrrrrr"),
        ("LDN", b"rkrkrk"),
        ("AND", b"kkrkkk"),
        ("ANDN", b"kkrkkk"),
        ("OR", b"kkrkkk"),
        ("ORN", b"kkrkkk"),
        ("XOR", b"kkrkkk"),
        ("XORN", b"kkrkkk"),
        ("ADD", b"kkkkkr"),
        ("SUB", b"kkkkkr"),
        ("MUL", b"kkkkkr"),
        ("DIV", b"kkkkkr"),
        ("GT", b"kkkkkr"),
        ("GE", b"kkkkkr"),
        ("LT", b"kkkkkr"),
        ("LE", b"kkkkkr"),
        ("EQ", b"kkkkkr"),
        ("NE", b"kkkkkr"),
        ("ST", b"kkrkkr"),
        ("STN", b"kkrkkk"),
        ("S", b"kkrkkk"),
        ("R", b"kkrkkk"),
    ];
    for (operator, want) in cases {
        assert_eq!(rt; ends(operator), *want);
    }
}

#[test]
fn kinds_alone(rt: HostRuntime) {
    let cases = [
        ("NOT", b"krk"),
        ("JMP x x:", b"rrr"),
        ("JMPC x x:", b"krk"),
        ("JMPCN x x:", b"krk"),
        ("x:", b"rrr"),
    ];
    for (rest, want) in cases {
        let mut got = [0; 3];
        for i in 0..3 {
            got[i] = end(load(i), rest, "");
        }
        assert_eq!(rt; got, *want);
    }
}

// The output of a kind, after an operator between a load and a store.
fn shown(kind: &str, first: &str, operator: &str, second: &str) -> i32 {
    let mut text = [b' '; 160];
    let at = append(&mut text, 0, "VAR_OUTPUT q:");
    let at = append(&mut text, at, kind);
    let at = append(&mut text, at, "; END_VAR LD");
    let at = append(&mut text, at, first);
    let at = append(&mut text, at, operator);
    let at = append(&mut text, at, second);
    let _ = append(&mut text, at, "ST q RET");
    let (_, out) = run(&text);
    out
}

#[test]
fn numbers(rt: HostRuntime) {
    let results = [
        ("ADD", [9, -5]),
        ("SUB", [5, -9]),
        ("MUL", [14, -14]),
        ("DIV", [3, -3]),
        ("LD", [2, 2]),
    ];
    for (operator, want) in results {
        let got = [
            shown("INT", "7", operator, "2"),
            shown("INT", "-7", operator, "2"),
        ];
        assert_eq!(rt; got, want);
    }
    let comparisons = [
        ("GT", [0, 0, 1]),
        ("GE", [0, 1, 1]),
        ("LT", [1, 0, 0]),
        ("LE", [1, 1, 0]),
        ("EQ", [0, 1, 0]),
        ("NE", [1, 0, 1]),
    ];
    for (operator, want) in comparisons {
        let got = [
            shown("BOOL", "-3", operator, "2"),
            shown("BOOL", "2", operator, "2"),
            shown("BOOL", "3", operator, "2"),
        ];
        assert_eq!(rt; got, want);
    }
}

#[test]
fn truths(rt: HostRuntime) {
    let operators = [
        ("LD", [0, 1, 0, 1]),
        ("LDN", [1, 0, 1, 0]),
        ("AND", [0, 0, 0, 1]),
        ("ANDN", [0, 0, 1, 0]),
        ("OR", [0, 1, 1, 1]),
        ("ORN", [1, 0, 1, 1]),
        ("XOR", [0, 1, 1, 0]),
        ("XORN", [1, 0, 0, 1]),
    ];
    for (operator, want) in operators {
        let got = [
            shown("BOOL", "FALSE", operator, "FALSE"),
            shown("BOOL", "FALSE", operator, "TRUE"),
            shown("BOOL", "TRUE", operator, "FALSE"),
            shown("BOOL", "TRUE", operator, "TRUE"),
        ];
        assert_eq!(rt; got, want);
    }
}

// The output after a store, from what it was and the current result.
fn stored(before: &str, operator: &str, res: &str) -> i32 {
    let mut text = [b' '; 160];
    let at = append(&mut text, 0, "VAR_OUTPUT q: BOOL; END_VAR LD");
    let at = append(&mut text, at, before);
    let at = append(&mut text, at, "ST q LD");
    let at = append(&mut text, at, res);
    let at = append(&mut text, at, operator);
    let _ = append(&mut text, at, "q RET");
    let (_, out) = run(&text);
    out
}

#[test]
fn stores(rt: HostRuntime) {
    let operators = [
        ("ST", [0, 1, 0, 1]),
        ("STN", [1, 0, 1, 0]),
        ("S", [0, 1, 1, 1]),
        ("R", [0, 0, 1, 0]),
    ];
    for (operator, want) in operators {
        let got = [
            stored("FALSE", operator, "FALSE"),
            stored("FALSE", operator, "TRUE"),
            stored("TRUE", operator, "FALSE"),
            stored("TRUE", operator, "TRUE"),
        ];
        assert_eq!(rt; got, want);
    }
}
