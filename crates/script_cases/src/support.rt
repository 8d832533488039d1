// How a script is tried.
use commands::answer::Answer;
use commands::running::run;
use interval::Interval;
use options::request::{Options, SetKind};
use std::alloc::{AllocError, Global};
use std::process::Abort;
use std::test::Fail;

pub(crate) fn answer(heap: Global, text: &str, script: &str) -> Result<Answer, AllocError> {
    let options = Options {
        statements: 16,
        variables: 8,
        sweeps: 100,
        kind: SetKind::Interval,
        explain: false,
    };
    run::<Interval>(heap, options, text.as_bytes(), script.as_bytes())
}

// Tries a script for its lines; they tell a refusal that ends it.
pub(crate) fn expect(
    rt: &impl Abort,
    heap: Global,
    text: &str,
    script: &str,
    lines: &str,
    refused: bool,
) -> Result<(), Fail> {
    let answer = answer(heap, text, script)?;
    assert!(rt; answer.output.as_str() == lines, "{}", script);
    assert_eq!(rt; answer.refusal.is_some(), refused, "{}", script);
    Ok(())
}
