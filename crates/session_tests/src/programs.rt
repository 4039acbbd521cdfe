//! Programs that run, STOP and CONT, and lines of immediate mode beside them.

use crate::talks::{
    Answer, HELLO, ILLEGAL_COMMAND, NOTHING_BETWEEN, READY, Row, SYNTAX, expect_of_lines,
    expect_talk,
};
use std::alloc::Global;
use std::test::Fail;

const CANT: &str = "?Can't continue\nReady\n";

const STOPPED: &str = "Stop at line 10\nReady\n";

static TAILS: [Row; 11] = [
    ("RUN", "NONAME\nReady\n"),
    ("10 PRINT 1%", ""),
    ("run", "NONAME\n 1 \nReady\n"),
    ("  RunNh \t", " 1 \nReady\n"),
    ("RUNNH 10", ILLEGAL_COMMAND),
    ("RENAME DEMO", READY),
    ("RUN", "DEMO\n 1 \nReady\n"),
    ("RUN DK:DEMO", "?Device not available\nReady\n"),
    ("RUNS", "?Floating variable\nReady\n"),
    ("CONT 10", ILLEGAL_COMMAND),
    ("CONT", CANT),
];

#[test]
fn run_and_its_tails(rt: HostRuntime) -> Result<(), Fail> {
    expect_of_lines(rt.alloc(), &TAILS)
}

/// Lines each of which forbids CONT.
static FORBIDDING: [Row; 4] = [
    ("20", ""),
    ("20 STOP", ""),
    ("DELETE 500", READY),
    ("NEW", READY),
];

fn expect_no_cont(alloc: Global, line: &str, shown: &str) -> Result<(), Fail> {
    let lines = [
        ("10 STOP", ""),
        ("RUNNH", STOPPED),
        (line, shown),
        ("CONT", CANT),
    ];
    expect_of_lines(alloc, &lines)
}

#[test]
fn what_forbids_cont(rt: HostRuntime) -> Result<(), Fail> {
    for (line, shown) in FORBIDDING.iter() {
        expect_no_cont(rt.alloc(), line, shown)?;
    }
    Ok(())
}

/// Lines none of which forbids CONT.
static ALLOWING: [Row; 10] = [
    ("", ""),
    ("LISTNH 10", "10 STOP\nReady\n"),
    ("RENAME X", READY),
    ("DELETE", ILLEGAL_COMMAND),
    ("20 PRINT 1%+", SYNTAX),
    ("0 STOP", "?Illegal line number\nReady\n"),
    ("PRINT 1%/0%", "?Division by 0\nReady\n"),
    ("END", READY),
    ("PRINT I%; FOR I%=1% TO 2%", " 1  2 \nReady\n"),
    ("OLD DEMO-", "?Illegal file name\nReady\n"),
];

fn expect_cont(alloc: Global, line: &str, shown: &str) -> Result<(), Fail> {
    let lines = [
        ("10 STOP", ""),
        ("30 PRINT 3%", ""),
        ("RUNNH", STOPPED),
        (line, shown),
        ("CONT", " 3 \nReady\n"),
        ("CONT", CANT),
    ];
    expect_of_lines(alloc, &lines)
}

#[test]
fn what_does_not_forbid_cont(rt: HostRuntime) -> Result<(), Fail> {
    for (line, shown) in ALLOWING.iter() {
        expect_cont(rt.alloc(), line, shown)?;
    }
    Ok(())
}

/// A line 10, and how a program ends there.
static ENDING: [Row; 4] = [
    ("10 END", READY),
    ("10 PRINT 1%/0%", "?Division by 0 at line 10\nReady\n"),
    ("10 RETURN", "?RETURN without GOSUB at line 10\nReady\n"),
    ("10 GOTO 20", "?Undefined line at line 10\nReady\n"),
];

fn expect_no_cont_behind(alloc: Global, line: &str, shown: &str) -> Result<(), Fail> {
    let lines = [
        ("10 STOP", ""),
        ("RUNNH", STOPPED),
        (line, ""),
        ("RUNNH", shown),
        ("CONT", CANT),
    ];
    expect_of_lines(alloc, &lines)
}

#[test]
fn ends_behind_which_cont_is_refused(rt: HostRuntime) -> Result<(), Fail> {
    for (line, shown) in ENDING.iter() {
        expect_no_cont_behind(rt.alloc(), line, shown)?;
    }
    Ok(())
}

static CLEARED: [Row; 6] = [
    ("A%=5%", READY),
    ("PRINT A%", " 5 \nReady\n"),
    ("10 NEXT I%", ""),
    ("RUN", "NONAME\n?NEXT without FOR at line 10\nReady\n"),
    ("PRINT A%", " 0 \nReady\n"),
    ("LISTNH", "10 NEXT I%\nReady\n"),
];

#[test]
fn a_refused_program_leaves_memory_cleared(rt: HostRuntime) -> Result<(), Fail> {
    expect_of_lines(rt.alloc(), &CLEARED)
}

static WRONG_KINDS: [Row; 8] = [
    ("10 PRINT 1%", ""),
    ("20 DEF FNA%(X%)=X%", ""),
    ("30 PRINT FNA%('12')", ""),
    ("RUNNH", "?Wrong arguments at line 30\nReady\n"),
    ("20 DEF FNA%(X$)=VAL(X$)", ""),
    ("RUNNH", " 1 \n 12 \nReady\n"),
    ("30 PRINT FNA%(12%)", ""),
    ("RUNNH", "?Wrong arguments at line 30\nReady\n"),
];

#[test]
fn arguments_of_the_wrong_kind_stop_a_program_before_it_runs(rt: HostRuntime) -> Result<(), Fail> {
    expect_of_lines(rt.alloc(), &WRONG_KINDS)
}

static LIMITS: [Row; 9] = [
    ("10 FOR I%=1% TO 2%", ""),
    ("20 STOP", ""),
    ("30 NEXT I%", ""),
    ("RUNNH", "Stop at line 20\nReady\n"),
    ("J%=J%+K% FOR K%=1% TO 9%", READY),
    ("PRINT I%; J%", " 1  45 \nReady\n"),
    ("CONT", "Stop at line 20\nReady\n"),
    ("CONT", READY),
    ("PRINT I%", " 2 \nReady\n"),
];

#[test]
fn a_loop_goes_on_with_its_limits(rt: HostRuntime) -> Result<(), Fail> {
    expect_of_lines(rt.alloc(), &LIMITS)
}

static STOP_IN_A_BODY: [Row; 7] = [
    ("10 DEF FNA%(N%)", ""),
    ("20 STOP", ""),
    ("30 FNEND", ""),
    ("40 PRINT FNA%(1%) : PRINT 4%", ""),
    ("RUNNH", "Stop at line 20\nReady\n"),
    ("PRINT N%", " 0 \nReady\n"),
    ("CONT", " 4 \nReady\n"),
];

#[test]
fn a_stop_in_a_body_goes_on_behind_the_line(rt: HostRuntime) -> Result<(), Fail> {
    expect_of_lines(rt.alloc(), &STOP_IN_A_BODY)
}

static ERRORS: [Row; 7] = [
    ("10 ON ERROR GOTO 30", ""),
    ("20 PRINT 1%/0%", ""),
    ("30 PRINT ERR; ERL : STOP", ""),
    ("RUNNH", " 61  20 \nStop at line 30\nReady\n"),
    ("PRINT ERR; ERL", " 61  0 \nReady\n"),
    ("PRINT 1%/0%", "?Division by 0\nReady\n"),
    ("PRINT ERR", " 61 \nReady\n"),
];

#[test]
fn errors_keep_their_number_and_line(rt: HostRuntime) -> Result<(), Fail> {
    expect_of_lines(rt.alloc(), &ERRORS)
}

static KEYS_OF_INPUT: [&str; 7] = [
    HELLO,
    "10 INPUT 'AGE'; A%, N$ : PRINT N$; A%",
    "20 INPUT LINE L$ : PRINT LEN(L$)",
    "RUNNH",
    "42, 'ANN, B.'",
    "XYZ",
    "BYE",
];

const SHOWN_OF_INPUT: &str = "HELLO 100,5;DEMO\nReady\n10 INPUT 'AGE'; A%, N$ : PRINT N$; A%\n\
    20 INPUT LINE L$ : PRINT LEN(L$)\nRUNNH\nAGE? 42, 'ANN, B.'\nANN, B. 42 \n? XYZ\n 5 \n\
    Ready\nBYE\nBye\n";

const DONE_TWICE: [Answer; 2] = [Answer::Done, Answer::Done];

#[test]
fn input_takes_the_keys_that_follow(rt: HostRuntime) -> Result<(), Fail> {
    let alloc = rt.alloc();
    expect_talk(
        alloc,
        &KEYS_OF_INPUT,
        &DONE_TWICE,
        SHOWN_OF_INPUT,
        NOTHING_BETWEEN,
    )?;
    let shown = "HELLO 100,5;DEMO\nReady\nINPUT A%\n? \n?End of file on device\nReady\nBye\n";
    expect_talk(
        alloc,
        &[HELLO, "INPUT A%"],
        &DONE_TWICE,
        shown,
        NOTHING_BETWEEN,
    )
}

/// Checks a job whose calls are used up while its program runs.
#[test]
fn the_thousandth_unit_asks(rt: HostRuntime) -> Result<(), Fail> {
    let keys = [HELLO, "10 PRINT 1%; : GOTO 20", "20 GOTO 20", "RUNNH"];
    let answers = [Answer::Done, Answer::Done, Answer::Expired];
    let log = "Login 100,5;DEMO Done\nTick Done\nTick Expired\n";
    let shown = "HELLO 100,5;DEMO\nReady\n10 PRINT 1%; : GOTO 20\n20 GOTO 20\nRUNNH\n 1 \n\
        ?Job expired\n";
    expect_talk(rt.alloc(), &keys, &answers, shown, log)
}
