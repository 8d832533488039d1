// Command lines, right and wrong.
use options::parse;
use options::request::{Job, Request};
use std::alloc::{AllocError, Global};
use std::test::Fail;

// What a line of words between single blanks asks for.
fn request(heap: Global, line: &str) -> Result<Option<Request>, AllocError> {
    let mut words = Vec::new(heap);
    for word in line.split(' ') {
        words.push(String::from_str(heap, word)?)?;
    }
    Ok(parse(&words).ok())
}

#[test]
fn wrong_lines_ask_for_nothing(rt: HostRuntime) -> Result<(), Fail> {
    let lines = [
        "station.il",
        "LIST",
        "list --x",
        "list --statements=5",
        "list --statements",
        "list --statements 1025",
        "list --statements -1",
        "list --statements +1",
        "list --variables 65",
        "list --sweeps 65536",
        "list --sweeps 99999999999999999999999999",
        "list --kind octagon",
        "list a.il --explain",
        "list a.il b.il",
        "help a.il",
    ];
    for line in lines {
        assert!(rt; request(rt.alloc(), line)?.is_none(), "{}", line);
    }
    Ok(())
}

#[test]
fn options_come_before_the_file(rt: HostRuntime) -> Result<(), Fail> {
    let line = "list --statements 1024 --variables 0 --sweeps 65535 --kind list --explain a.il";
    let all = request(rt.alloc(), line)?.ok_or("refused")?;
    assert_eq!(rt; all.options.statements, 1_024);
    assert_eq!(rt; all.options.variables, 0);
    assert_eq!(rt; all.options.sweeps, 65_535);
    assert!(rt; all.options.explain);
    assert_eq!(rt; all.files, 1);
    let none = request(rt.alloc(), "--explain")?.ok_or("refused")?;
    assert_eq!(rt; none.options.statements, 64);
    assert_eq!(rt; none.options.variables, 15);
    assert_eq!(rt; none.options.sweeps, 100);
    assert_eq!(rt; none.files, 0);
    assert!(rt; matches!(none.job, Job::List));
    Ok(())
}
