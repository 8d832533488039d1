// Each fault, and each tie of places.
use crate::places::{answer, expect};
use reading::fill::fill;
use std::test::Fail;
use syntax::record::{Statement, Variable};

#[test]
fn a_text_has_the_fault_at_the_place(rt: HostRuntime) -> Result<(), Fail> {
    let cases: [(&[u8], u8, usize); 26] = [
        (b"LD #", 2, 3),
        (b"LD \0", 2, 3),
        (b"LD \xff", 2, 3),
        (b"LD - 5", 2, 3),
        (b"( RET", 2, 0),
        (b"RET (* open", 3, 4),
        (b"(*)", 3, 0),
        (b"LD 32768 RET", 4, 3),
        (b"LD -32769 RET", 4, 3),
        (b"-32769", 4, 0),
        (b"LD ;", 5, 3),
        (b"LD", 5, 2),
        (b"5", 5, 0),
        (b"VAR a : INT := TRUE ; END_VAR RET", 5, 15),
        (b"VAR a : BOOL := 1 ; END_VAR RET", 5, 16),
        (b"RETC RET", 5, 5),
        (b"VAR a : INT ; a : INT ; END_VAR RET", 7, 14),
        (b"VAR a : INT ; END_VAR a : RET", 7, 22),
        (b"LD x RET", 8, 3),
        (b"a : LD a RET", 8, 7),
        (b"JMP x RET", 8, 4),
        (b"VAR a : INT ; END_VAR JMP a RET", 8, 26),
        (b"", 11, 0),
        (b"(**)", 11, 4),
        (b"LD 1", 11, 4),
        (b"JMP x", 11, 5),
    ];
    for (text, number, place) in cases {
        expect(
            &rt,
            &answer(rt.alloc(), text, b"", 64, 1024)?,
            number,
            place,
        )?;
    }
    Ok(())
}

#[test]
fn full_places_come_after_what_does_not_fit(rt: HostRuntime) -> Result<(), Fail> {
    let cases: [(&[u8], usize, usize, u8, usize); 8] = [
        (b"VAR a : INT ; b : INT ; END_VAR RET", 1, 9, 9, 14),
        (b"VAR a : INT ; a : INT ; END_VAR RET", 1, 9, 7, 14),
        (b"RET RET", 1, 1, 10, 4),
        (b"a : a : RET", 1, 1, 7, 4),
        (b"RET ;", 1, 1, 5, 4),
        (b";", 0, 0, 5, 0),
        (b"RET", 0, 0, 10, 0),
        (b"VAR a : INT ; END_VAR RET", 0, 0, 9, 4),
    ];
    for (text, variables, statements, number, place) in cases {
        expect(
            &rt,
            &answer(rt.alloc(), text, b"", variables, statements)?,
            number,
            place,
        )?;
    }
    Ok(())
}

#[test]
fn long_texts_end_too(rt: HostRuntime) -> Result<(), Fail> {
    let heap = rt.alloc();
    let blanks = vec![in heap; b' '; 65_535]?;
    let beyond = vec![in heap; b'#'; 65_536]?;
    let nines = vec![in heap; b'9'; 5_000]?;
    let zeros = vec![in heap; b'0'; 5_000]?;
    expect(&rt, &answer(heap, &blanks, b"", 64, 64)?, 11, 65_535)?;
    expect(&rt, &answer(heap, &beyond, b"", 64, 64)?, 1, 65_535)?;
    expect(&rt, &answer(heap, &nines, b"", 64, 64)?, 4, 0)?;
    expect(&rt, &answer(heap, &zeros, b"", 64, 64)?, 5, 0)?;
    expect(&rt, &answer(heap, b"RET", &beyond, 64, 64)?, 1, 65_535)
}

#[test]
fn ranges_are_refused_where_they_do_not_fit(rt: HostRuntime) -> Result<(), Fail> {
    let text: &[u8] = b"VAR_INPUT b : BOOL ; n : INT ; END_VAR RET";
    let cases: [(&[u8], u8, usize); 12] = [
        (b"1 -5 5 (* n *) 1 0 0", 0, 0),
        (b"9 1 0 #", 12, 9),
        (b"0 1 2", 12, 0),
        (b"1 5 1", 12, 1),
        (b"1 2 3 2 3 4", 12, 2),
        (b"-1 2 3", 5, 0),
        (b"1 2", 5, 3),
        (b"1 2 ;", 5, 4),
        (b"x", 5, 0),
        (b"1 40000 1", 4, 2),
        (b"1 #", 2, 2),
        (b"1 2 (*", 3, 4),
    ];
    for (input, number, place) in cases {
        expect(
            &rt,
            &answer(rt.alloc(), text, input, 64, 64)?,
            number,
            place,
        )?;
    }
    Ok(())
}

fn blanks(variables: &[Variable], statements: &[Statement]) -> usize {
    let unnamed = variables
        .iter()
        .filter(|variable| variable.declaration().name.length == 0)
        .count();
    let unplaced = statements
        .iter()
        .filter(|statement| statement.place() == 0)
        .count();
    unnamed.saturating_add(unplaced)
}

#[test]
fn records_are_blank_after_a_refusal_and_behind_a_program(rt: HostRuntime) {
    let mut variables = [Variable::BLANK; 3];
    let mut statements = [Statement::BLANK; 3];
    let long: &[u8] = b" VAR a : INT ; b : INT ; c : INT ; END_VAR LD a ST b RET";
    let short: &[u8] = b" VAR a : INT ; END_VAR RET";
    let _ = fill(long, &mut variables, &mut statements);
    assert_eq!(rt; blanks(&variables, &statements), 0);
    let _ = fill(short, &mut variables, &mut statements);
    assert_eq!(rt; blanks(&variables, &statements), 4);
    let _ = fill(
        b" VAR a : INT ; END_VAR LD a",
        &mut variables,
        &mut statements,
    );
    assert_eq!(rt; blanks(&variables, &statements), 6);
}
