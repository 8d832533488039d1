// Scripts with their lines.
use crate::support::expect;
use std::test::Fail;

const DIVIDE: &str =
    "VAR_INPUT n: INT; END_VAR VAR_OUTPUT q: INT; b: BOOL; END_VAR LD 96 DIV n ST q RET";

const FOREVER: &str = "again: JMP again RET";

#[test]
fn each_line(rt: HostRuntime) -> Result<(), Fail> {
    let cases = [
        ("start 5", "started\nsteps 0 outside 0 unmarked 0\n"),
        (
            "start 5 step step step step",
            "started\nat 1\nat 2\nat 3\nwaiting\nsteps 4 outside 0 unmarked 0\n",
        ),
        (
            "scan 5 read",
            "waiting\nread 19 0\nsteps 4 outside 0 unmarked 0\n",
        ),
        (
            "scan -7 read",
            "waiting\nread -13 0\nsteps 4 outside 0 unmarked 0\n",
        ),
        (
            "0 1 12 scan 5 read",
            "waiting\nread 19 0\nsteps 4 outside 0 unmarked 0\n",
        ),
        ("scan 0", "stopped 1 Z\nsteps 2 outside 0 unmarked 0\n"),
        (
            "scan 0 restart scan 96 read",
            "stopped 1 Z\nrestarted\nwaiting\nread 1 0\nsteps 6 outside 0 unmarked 0\n",
        ),
        ("", "steps 0 outside 0 unmarked 0\n"),
        ("0 1 12 (* no call *)", "steps 0 outside 0 unmarked 0\n"),
    ];
    for (script, lines) in cases {
        expect(&rt, rt.alloc(), DIVIDE, script, lines, false)?;
    }
    Ok(())
}

#[test]
fn refusals_that_go_on(rt: HostRuntime) -> Result<(), Fail> {
    let cases = [
        ("step", "refused 23 0\nsteps 0 outside 0 unmarked 0\n"),
        ("start", "refused 14 1\nsteps 0 outside 0 unmarked 0\n"),
        ("scan 5 5", "refused 14 1\nsteps 0 outside 0 unmarked 0\n"),
        (
            "0 1 12 scan 13",
            "refused 14 0\nsteps 0 outside 0 unmarked 0\n",
        ),
        (
            "start 5 start 5 read step",
            "started\nrefused 22 0\nrefused 22 0\nat 1\nsteps 1 outside 0 unmarked 0\n",
        ),
        (
            "scan 0 step scan 1",
            "stopped 1 Z\nrefused 23 1\nrefused 22 1\nsteps 2 outside 0 unmarked 0\n",
        ),
    ];
    for (script, lines) in cases {
        expect(&rt, rt.alloc(), DIVIDE, script, lines, false)?;
    }
    Ok(())
}

#[test]
fn refusals_that_end_the_script(rt: HostRuntime) -> Result<(), Fail> {
    let cases = [
        ("scan 5 ;", "refused 5 7\n"),
        ("scan 5 stop", "waiting\nrefused 5 7\n"),
        ("scan 5 #", "refused 2 7\n"),
        ("scan 40000", "refused 4 5\n"),
        ("step 5", "refused 23 0\nrefused 5 5\n"),
        ("stop", "refused 5 0\n"),
        ("0 1 scan 5", "refused 5 4\n"),
        ("9 1 0 scan 5", "refused 12 9\n"),
        ("0 1 12 (* open", "refused 3 7\n"),
        ("READ", "refused 5 0\n"),
    ];
    for (script, lines) in cases {
        expect(&rt, rt.alloc(), DIVIDE, script, lines, true)?;
    }
    expect(&rt, rt.alloc(), "LD", "scan", "refused 5 2\n", true)
}

#[test]
fn a_loop_that_never_ends(rt: HostRuntime) -> Result<(), Fail> {
    let lines = "at 1\nrefused 22 1\nat 0\nsteps 65536 outside 0 unmarked 0\n";
    expect(&rt, rt.alloc(), FOREVER, "scan scan step", lines, false)
}
