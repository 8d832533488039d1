// How a case is tried.
use commands::answer::{Answer, list};
use options::request::{Options, SetKind};
use std::alloc::{AllocError, Global};
use std::process::Abort;
use std::test::Fail;

// What the job `list` answers, with places for so many variables and statements.
pub(crate) fn answer(
    heap: Global,
    text: &[u8],
    input: &[u8],
    variables: usize,
    statements: usize,
) -> Result<Answer, AllocError> {
    let options = Options {
        statements,
        variables,
        sweeps: 0,
        kind: SetKind::Interval,
        explain: false,
    };
    list(heap, options, text, input)
}

pub(crate) fn expect(
    rt: &impl Abort,
    answer: &Answer,
    number: u8,
    place: usize,
) -> Result<(), Fail> {
    match answer.refusal {
        Some(fault) => {
            assert_eq!(rt; fault.number(), number);
            assert_eq!(rt; fault.place(), place);
            Ok(())
        }
        None => {
            assert_eq!(rt; 0, number);
            Ok(())
        },
    }
}
