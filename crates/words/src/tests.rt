// Texts and the words that they hold.
use super::*;
use std::process::Abort;
use std::test::Fail;

// The bytes by which a word is written.
fn written<'t>(word: Word<'t>) -> &'t [u8] {
    match word {
        Word::Name(bytes) | Word::Number(bytes) => bytes,
        Word::Colon => b":",
        Word::Semicolon => b";",
        Word::Assign => b":=",
    }
}

// Whether the words of a text stand at these places, and whether its end or this fault comes behind them.
fn reads(
    rt: &impl Abort,
    text: &[u8],
    words: &[(usize, &str)],
    last: Option<(u8, usize)>,
) -> Result<(), Fail> {
    let mut reader = Reader::new(text);
    for (place, word) in words {
        match reader.next_word()? {
            Some((found, w)) => {
                assert_eq!(rt; found, *place);
                assert!(rt; written(w) == word.as_bytes());
            }
            None => return Err(Fail::new("a word is missing")),
        }
    }
    match reader.next_word() {
        Ok(None) => {
            assert_eq!(rt; reader.end(), text.len());
            assert_eq!(rt; None, last);
            Ok(())
        }
        Ok(Some(_)) => Err(Fail::new("a word too many")),
        Err(fault) => {
            assert_eq!(rt; Some((fault.number(), fault.place())), last);
            Ok(())
        },
    }
}

#[test]
fn words_of_texts(rt: HostRuntime) -> Result<(), Fail> {
    let cases: [(&[u8], &[(usize, &str)], Option<(u8, usize)>); 16] = [
        (b"", &[], None),
        (b" \t\r\n", &[], None),
        (b"5-3", &[(0, "5"), (1, "-3")], None),
        (b"5ADD", &[(0, "5"), (1, "ADD")], None),
        (b"_a1 ld", &[(0, "_a1"), (4, "ld")], None),
        (b"x:=:;", &[(0, "x"), (1, ":="), (3, ":"), (4, ";")], None),
        (b": =", &[(0, ":")], Some((2, 2))),
        (b"-32768 007", &[(0, "-32768"), (7, "007")], None),
        (b" -32769", &[], Some((4, 1))),
        (&[b'9'; 5000], &[], Some((4, 0))),
        (b"A - 3", &[(0, "A")], Some((2, 2))),
        (b"(", &[], Some((2, 0))),
        (b" (*)", &[], Some((3, 1))),
        (b"(**)A(* \0\xff;(* *)B", &[(4, "A"), (16, "B")], None),
        (b"A\0", &[(0, "A")], Some((2, 1))),
        (b"\x80", &[], Some((2, 0))),
    ];
    for (text, words, last) in cases {
        reads(&rt, text, words, last)?;
    }
    Ok(())
}
