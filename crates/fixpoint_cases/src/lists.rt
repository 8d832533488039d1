// Tables of lists.
use crate::support::*;
use cells::cell::Cell;
use fixpoint::settle;
use list::NumberList;
use program::Program;
use syntax::record::{Statement, Variable};

// Settles a text's table in so many cells that allow everything, and tells the answer and one cell.
fn settled(
    text: &str,
    low: i16,
    high: i16,
    size: usize,
    sweeps: u16,
    at: usize,
) -> ((u8, usize), (u8, bool, u8, i16)) {
    let mut variables = [Variable::BLANK; 8];
    let mut statements = [Statement::BLANK; 16];
    let mut program = Program::read(text.as_bytes(), &mut variables, &mut statements);
    let _ = program.set_range(0, low, high);
    let mut cells = [EVERYTHING; 60];
    let answer = settle(&program, &mut cells[0..size.min(60)], sweeps);
    (told(answer), list_parts(cells[at.min(59)]))
}

#[test]
fn sweeps_taken(rt: HostRuntime) {
    let cases = [
        (DIVIDE, 1, 3, 12, 0, (25, 0), 5, (0, false, 0, 0)),
        (DIVIDE, 1, 3, 12, 2, (25, 2), 6, (0, false, 3, 32)),
        (DIVIDE, 1, 3, 12, 3, (0, 3), 2, (0, false, 4, 0)),
        (DIVIDE, 1, 12, 12, 100, (0, 3), 2, (0, true, 0, 0)),
        (COUNT, 0, 0, 14, 8, (25, 8), 11, (0, false, 8, 1)),
        (COUNT, 0, 0, 14, 9, (25, 9), 11, (0, true, 0, 0)),
        (COUNT, 0, 0, 14, 100, (0, 10), 1, (0, true, 0, 0)),
        (SKIP, 0, 0, 14, 100, (0, 3), 2, (0, false, 0, 0)),
    ];
    for (text, low, high, size, sweeps, answer, at, cell) in cases {
        assert_eq!(rt; settled(text, low, high, size, sweeps, at), (answer, cell));
    }
}
