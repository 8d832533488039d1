// Cells written and read.
use cells::cell::Cell;
use interval::Interval;
use list::NumberList;
use notation::cell::{cell_text, read_cell};
use notation::sheet::sheet_line;
use std::alloc::{AllocError, Global};
use std::test::Fail;
use transfer::marks::Marks;

// The text of what a text reads as; a question mark where it is refused.
fn interval_again(heap: Global, text: &str) -> Result<String, AllocError> {
    let cell: Option<Cell<Interval>> = read_cell(text.as_bytes());
    match cell {
        Some(cell) => cell_text(heap, cell),
        None => String::from_str(heap, "?"),
    }
}

fn list_again(heap: Global, text: &str) -> Result<String, AllocError> {
    let cell: Option<Cell<NumberList>> = read_cell(text.as_bytes());
    match cell {
        Some(cell) => cell_text(heap, cell),
        None => String::from_str(heap, "?"),
    }
}

#[test]
fn intervals(rt: HostRuntime) -> Result<(), Fail> {
    let cases = [
        (".", "."),
        ("u", "u"),
        ("uft", "uft"),
        ("1..7", "1..7"),
        ("ut-5..007", "ut-5..7"),
        ("-32768..32767", "-32768..32767"),
        ("f7..1", "f"),
        ("7..1", "."),
        ("-32769..0", "?"),
        ("0..32768", "?"),
        ("tu", "?"),
        ("uu", "?"),
        ("u.", "?"),
        ("1.7", "?"),
        ("1...7", "?"),
        ("..7", "?"),
        ("-..7", "?"),
        ("1,7", "?"),
        ("*", "?"),
        ("", "?"),
    ];
    for (text, again) in cases {
        let found = interval_again(rt.alloc(), text)?;
        assert!(rt; found.as_str() == again, "{}", text);
    }
    Ok(())
}

#[test]
fn lists(rt: HostRuntime) -> Result<(), Fail> {
    let cases = [
        (".", "."),
        ("u*", "u*"),
        ("5", "5"),
        ("t-3,0,07", "t-3,0,7"),
        ("1,2,3,4,5,6,7,8", "1,2,3,4,5,6,7,8"),
        ("1,2,3,4,5,6,7,8,9", "?"),
        ("2,1", "."),
        ("u1,1", "u"),
        ("1,", "?"),
        (",1", "?"),
        ("1..7", "?"),
        ("**", "?"),
        ("40000", "?"),
    ];
    for (text, again) in cases {
        let found = list_again(rt.alloc(), text)?;
        assert!(rt; found.as_str() == again, "{}", text);
    }
    Ok(())
}

#[test]
fn a_line(rt: HostRuntime) -> Result<(), Fail> {
    let marks = Marks {
        overflow: true,
        zero_divisor: true,
        kind: false,
        unreachable: false,
    };
    let cell = Cell {
        unset: false,
        can_be_false: false,
        can_be_true: false,
        numbers: Interval {
            low: -32768,
            high: -32768,
        },
    };
    let mut row = [cell; 2];
    row[1].numbers = Interval { low: -1, high: 1 };
    let line = sheet_line(rt.alloc(), 1, marks, &row)?;
    assert!(rt; line.as_str() == "1 OZ-- -32768..-32768 -1..1\n");
    Ok(())
}
