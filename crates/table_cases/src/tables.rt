// Texts of tables for two statements and two cells a row.
use cells::cell::Cell;
use interval::Interval;
use table_text::read_table;

const VACANT: Cell<Interval> = Cell {
    unset: false,
    can_be_false: false,
    can_be_true: false,
    numbers: Interval { low: 1, high: 0 },
};

// The number and the place of the fault; 0 and the high of the last cell where there is none.
fn outcome(text: &str) -> (u8, usize) {
    let mut cells = [VACANT; 4];
    match read_table(text.as_bytes(), 2, 2, &mut cells) {
        Ok(()) => (0, cells[3].numbers.high.max(0) as usize),
        Err(fault) => (fault.number(), fault.place()),
    }
}

#[test]
fn texts(rt: HostRuntime) {
    let cases = [
        ("0 ---- u 1..2\n1 OZKN . 3..4\n", (0, 4)),
        ("settled 7 or so\r\n\n 0 - u 1..2 \n\n1\t- . f3..5", (0, 5)),
        ("settled\n0 - u .\n1 - . 1..6", (0, 6)),
        ("", (5, 0)),
        ("settled 3\n", (5, 10)),
        ("0 - u .\n", (5, 8)),
        ("1 - u .\n0 - u .\n", (5, 0)),
        ("0 - u\n1 - u .\n", (5, 6)),
        ("0 - u . .\n1 - u .\n", (5, 8)),
        ("0 - u . 1 - u .\n", (5, 8)),
        ("0\n- u .\n1 - u .\n", (5, 2)),
        ("0 - u .\n1 - u .\n2 - u .\n", (5, 16)),
        ("0 - u .\n1 - u x\n", (5, 14)),
        ("0 - u .\n1 - u 1,2\n", (5, 14)),
        ("0 - u .\n1 - u", (5, 13)),
        ("(* *) 0 - u .\n", (5, 0)),
    ];
    for (text, expected) in cases {
        assert_eq!(rt; outcome(text), expected, "{}", text);
    }
}
