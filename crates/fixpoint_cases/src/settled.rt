// Tables of intervals.
use crate::support::*;
use cells::cell::Cell;
use fixpoint::settle;
use interval::Interval;
use program::Program;
use syntax::record::{Statement, Variable};

// Settles a text's table in so many cells that allow everything, and tells the answer and one cell.
fn settled(
    text: &str,
    low: i16,
    high: i16,
    size: usize,
    sweeps: u16,
    at: usize,
) -> ((u8, usize), (u8, i16, i16)) {
    let mut variables = [Variable::BLANK; 8];
    let mut statements = [Statement::BLANK; 16];
    let mut program = Program::read(text.as_bytes(), &mut variables, &mut statements);
    let _ = program.set_range(0, low, high);
    let mut cells = [ALL; 60];
    let answer = settle(&program, &mut cells[0..size.min(60)], sweeps);
    (told(answer), parts(cells[at.min(59)]))
}

#[test]
fn sweeps_taken(rt: HostRuntime) {
    let cases = [
        (DIVIDE, 12, 0, (25, 0), 0, (0, 1, 0)),
        (DIVIDE, 12, 1, (25, 1), 6, (0, 8, 96)),
        (DIVIDE, 12, 2, (25, 2), 2, (0, 0, 96)),
        (DIVIDE, 12, 3, (0, 3), 2, (0, 0, 96)),
        (DIVIDE, 12, 65535, (0, 3), 1, (0, 1, 12)),
        (DIVIDE, 11, 100, (21, 12), 0, (7, -32768, 32767)),
        (DIVIDE, 13, 100, (21, 12), 12, (7, -32768, 32767)),
        (COUNT, 14, 8, (25, 8), 1, (0, 0, 8)),
        (COUNT, 14, 9, (25, 9), 1, (0, 0, 32767)),
        (COUNT, 14, 10, (0, 10), 10, (3, 1, 0)),
        (COUNT, 14, 100, (0, 10), 11, (0, 1, 32767)),
        (SKIP, 14, 100, (0, 3), 2, (0, 1, 0)),
        (SKIP, 14, 100, (0, 3), 13, (0, 7, 7)),
    ];
    for (text, size, sweeps, answer, at, cell) in cases {
        assert_eq!(rt; settled(text, 1, 12, size, sweeps, at), (answer, cell));
    }
}

#[test]
fn refused_text(rt: HostRuntime) {
    assert_eq!(rt; settled("LD", 0, 0, 0, 1, 0), ((0, 1), (7, -32768, 32767)));
    assert_eq!(rt; settled("LD", 0, 0, 0, 0, 0), ((25, 0), (7, -32768, 32767)));
    assert_eq!(rt; settled("LD", 0, 0, 1, 1, 0), ((21, 0), (7, -32768, 32767)));
}
