// What good programs list.
use crate::places::{answer, expect};
use std::alloc::{AllocError, Global};
use std::test::Fail;

#[test]
fn every_operator_is_listed(rt: HostRuntime) -> Result<(), Fail> {
    let text: &[u8] =
        b"VAR_INPUT i : INT ; b : BOOL ; END_VAR\nVAR o : BOOL := TRUE ; ld : INT := -32768 ; END_VAR\nVAR_OUTPUT END_VAR\n\
LD i LDN b AND TRUE ANDN FALSE OR b ORN b XOR b XORN b NOT\nADD 007 SUB -5 MUL TRUE DIV ld GT 1 GE 2 LT 3 LE 4 EQ 5 NE 6\n\
again:\nST ld STN o S o R o\nJMP again JMPC again JMPCN (* back *) again RET";
    let lines =
        "variables 4\n0 input INT i := 0 -1..1\n1 input BOOL b := FALSE\n2 local BOOL o := TRUE\n3 local INT ld := -32768\n\
statements 28\n0 4:1 LD i\n1 4:6 LDN b\n2 4:12 AND TRUE\n3 4:21 ANDN FALSE\n4 4:32 OR b\n5 4:37 ORN b\n6 4:43 XOR b\n7 4:49 XORN b\n8 4:56 NOT\n\
9 5:1 ADD 7\n10 5:9 SUB -5\n11 5:16 MUL TRUE\n12 5:25 DIV ld\n13 5:32 GT 1\n14 5:37 GE 2\n15 5:42 LT 3\n16 5:47 LE 4\n17 5:52 EQ 5\n18 5:57 NE 6\n\
19 6:1 again:\n20 7:1 ST ld\n21 7:7 STN o\n22 7:13 S o\n23 7:17 R o\n24 8:1 JMP again\n25 8:11 JMPC again\n26 8:22 JMPCN again\n27 8:45 RET\n";
    let answer = answer(rt.alloc(), text, b"0 -1 1", 64, 1024)?;
    assert!(rt; answer.output.as_str() == lines);
    Ok(())
}

// A program that declares so many variables.
fn declaring(heap: Global, count: usize) -> Result<String, AllocError> {
    let mut text = String::from_str(heap, "VAR ")?;
    for i in 0..count {
        let declaration = format!(in heap; "v{i} : INT ; ")?;
        text.push_str(declaration.as_str())?;
    }
    text.push_str("END_VAR RET")?;
    Ok(text)
}

#[test]
fn sixty_four_variables_are_read(rt: HostRuntime) -> Result<(), Fail> {
    let heap = rt.alloc();
    let most = declaring(heap, 64)?;
    let beyond = declaring(heap, 65)?;
    expect(&rt, &answer(heap, most.as_bytes(), b"", 64, 64)?, 0, 0)?;
    expect(&rt, &answer(heap, beyond.as_bytes(), b"", 99, 64)?, 9, 762)
}

#[test]
fn any_byte_may_stand_in_a_comment(rt: HostRuntime) -> Result<(), Fail> {
    let answer = answer(rt.alloc(), b"(* \0 \xff ( * ) (**) RET", b"", 1, 1)?;
    assert!(rt; answer.output.as_str() == "variables 0\nstatements 1\n0 1:19 RET\n");
    Ok(())
}
