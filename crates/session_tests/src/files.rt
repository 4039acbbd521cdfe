//! The commands on files: their requests to the monitor, and what they show.

use crate::talks::{
    Answer, Expiring, ILLEGAL_COMMAND, ILLEGAL_NAME, READY, Row, Talk, expect_all_expiring,
    expect_of_files, expect_of_user, expect_talks,
};
use crate::told::{Told, joined};
use std::alloc::Global;
use std::test::Fail;

const NO_DEVICE: &str = "?Device not available\nReady\n";

const NO_DATA: &str = "?Data format error\nReady\n";

static KEPT: [Talk; 1] = [(
    &[
        ("NEW DEMO", READY),
        ("10 PRINT \"HI\"", ""),
        ("SAVE", READY),
        ("SAVE", "?Name or account now exists\nReady\n"),
        ("REPLACE", READY),
        ("CAT", "DEMO  .BAS     1  <60>\nReady\n"),
        ("NEW", READY),
        ("OLD DEMO", READY),
        ("LISTNH", "10 PRINT \"HI\"\nReady\n"),
        ("UNSAVE", READY),
        ("UNSAVE", "?Can't find file or account\nReady\n"),
    ],
    &[
        Answer::Opened(0),
        Answer::Done,
        Answer::Done,
        Answer::Failed(16),
        Answer::Opened(0),
        Answer::Done,
        Answer::Done,
        Answer::Named("DEMO", 60, Some(1)),
        Answer::Failed(5),
        Answer::Opened(1),
        Answer::Block("10 PRINT \"HI\"\n"),
        Answer::Done,
        Answer::Done,
        Answer::Failed(5),
        Answer::Done,
    ],
    "Fresh [100,5]DEMO.BAS Opened 0\nPut 1 Done\nClose 0 Done\n\
     Fresh [100,5]DEMO.BAS Failed 16\n\
     Output [100,5]DEMO.BAS Opened 0\nPut 1 Done\nClose 0 Done\n\
     Directory 100,5 0 Name [100,5]DEMO.BAS\nDirectory 100,5 1 Failed 5\n\
     Input [100,5]DEMO.BAS Opened 1\nGet 1 Block\nClose 0 Done\n\
     Kill [100,5]DEMO.BAS Done\nKill [100,5]DEMO.BAS Failed 5\n",
)];

#[test]
fn a_program_is_kept_and_read_again(rt: HostRuntime) -> Result<(), Fail> {
    expect_talks(rt.alloc(), &KEPT)
}

static OLD: [Talk; 1] = [(
    &[
        ("old [1 , 2] s um . <40>", READY),
        ("LIST", "SUM\n10 STOP\nReady\n"),
        ("OLD $LIB.B", READY),
        ("LIST", "LIB\nReady\n"),
    ],
    &[
        Answer::Opened(1),
        Answer::Block("10 STOP\n"),
        Answer::Done,
        Answer::Opened(0),
        Answer::Done,
        Answer::Done,
    ],
    "Input [1,2]SUM<40> Opened 1\nGet 1 Block\nClose 0 Done\n\
     Input [1,2]LIB.B Opened 0\nClose 0 Done\n",
)];

#[test]
fn old_takes_the_name_of_the_file(rt: HostRuntime) -> Result<(), Fail> {
    expect_talks(rt.alloc(), &OLD)
}

static REFUSED_OLD: [Talk; 1] = [(
    &[
        ("10 A%=7% : STOP", ""),
        ("20 PRINT A%", ""),
        ("RUNNH", "Stop at line 10\nReady\n"),
        ("OLD X", "?Protection violation\nReady\n"),
        ("OLD X", "?End of file on device\nReady\n"),
        ("OLD X", "?I/O channel not open\nReady\n"),
        ("OLD X", NO_DATA),
        ("PRINT A%", " 7 \nReady\n"),
        ("CONT", " 7 \nReady\n"),
        ("LIST", "NONAME\n10 A%=7% : STOP\n20 PRINT A%\nReady\n"),
    ],
    &[
        Answer::Failed(10),
        Answer::Opened(2),
        Answer::Block("10 STOP\n"),
        Answer::Failed(11),
        Answer::Done,
        Answer::Opened(1),
        Answer::Block("10 STOP\n"),
        Answer::Failed(9),
        Answer::Opened(1),
        Answer::Block("10 STOP\nSTOP\n"),
        Answer::Done,
        Answer::Done,
    ],
    "Input [100,5]X.BAS Failed 10\n\
         Input [100,5]X.BAS Opened 2\nGet 1 Block\nGet 2 Failed 11\nClose 0 Done\n\
         Input [100,5]X.BAS Opened 1\nGet 1 Block\nClose 0 Failed 9\n\
         Input [100,5]X.BAS Opened 1\nGet 1 Block\nClose 0 Done\n",
)];

#[test]
fn a_refused_old_leaves_all(rt: HostRuntime) -> Result<(), Fail> {
    expect_talks(rt.alloc(), &REFUSED_OLD)
}

static NO_PROGRAMS: [Answer; 7] = [
    Answer::Block("STOP\n"),
    Answer::Block("10 STOP\n\n"),
    Answer::Block("10 STOP\n 20 STOP\n"),
    Answer::Block("0 STOP\n"),
    Answer::Block("10 A=1\n"),
    Answer::Block("10 MAT A$=ZER\n"),
    Answer::Block("10 MAT A$=ZER\n10 STOP\n"),
];

fn expect_no_program(alloc: Global, block: Answer) -> Result<(), Fail> {
    expect_of_files(
        alloc,
        &[("OLD X", NO_DATA), ("LIST", "NONAME\nReady\n")],
        &[Answer::Opened(1), block, Answer::Done, Answer::Done],
        "Input [100,5]X.BAS Opened 1\nGet 1 Block\nClose 0 Done\n",
    )
}

#[test]
fn texts_that_are_no_program(rt: HostRuntime) -> Result<(), Fail> {
    for block in NO_PROGRAMS.iter() {
        expect_no_program(rt.alloc(), *block)?;
    }
    Ok(())
}

/// Returns the answers to a file of comment lines up to number `last`, 51 in a block, and to the
/// logout.
fn answers_of_comments(alloc: Global, last: u16) -> Result<Vec<Answer>, Fail> {
    let mut answers = Vec::new(alloc);
    answers.push(Answer::Opened(20))?;
    for page in 0..20u16 {
        let first = page * 51 + 1;
        answers.push(Answer::Comments(first, last.min(first + 50)))?;
    }
    answers.extend_from_slice(&[Answer::Done, Answer::Done])?;
    Ok(answers)
}

/// Returns the requests for such a file.
fn asked_of_comments(alloc: Global) -> Told {
    let mut asked = Told::new(alloc);
    asked.put("Input [100,5]X.BAS Opened 20\n");
    for block in 1..=20u16 {
        asked.count("Get ", block);
        asked.put(" Block\n");
    }
    asked.put("Close 0 Done\n");
    asked
}

/// Fails unless OLD shows this of such a file.
fn expect_of_comments(alloc: Global, last: u16, shown: &str) -> Result<(), Fail> {
    let answers = answers_of_comments(alloc, last)?;
    let asked = asked_of_comments(alloc);
    expect_of_files(alloc, &[("OLD X", shown)], answers.as_slice(), asked.text())
}

#[test]
fn a_text_of_one_line_too_many(rt: HostRuntime) -> Result<(), Fail> {
    expect_of_comments(rt.alloc(), 1000, READY)?;
    expect_of_comments(rt.alloc(), 1001, NO_DATA)
}

static RUN: [Talk; 1] = [(
    &[
        ("A%=7%", READY),
        ("RUN SUM", " 0 \nStop at line 20\nReady\n"),
        ("CONT", READY),
        ("LIST", "SUM\n10 PRINT A%\n20 STOP\nReady\n"),
        ("RUN X", "?Can't find file or account\nReady\n"),
        ("RUN X", NO_DATA),
        ("RUN X", " 1 \nReady\n"),
        ("RUN X", "?Undefined line at line 10\nReady\n"),
        ("LIST", "X\n10 GOTO 20\nReady\n"),
    ],
    &[
        Answer::Opened(1),
        Answer::Block("20 STOP\n10 PRINT A%\n"),
        Answer::Done,
        Answer::Failed(5),
        Answer::Opened(1),
        Answer::Block("STOP\n"),
        Answer::Done,
        Answer::Opened(1),
        Answer::Block("10 MAT A%=CON : PRINT A%(1%,1%)\n"),
        Answer::Done,
        Answer::Opened(1),
        Answer::Block("10 GOTO 20\n"),
        Answer::Done,
        Answer::Done,
    ],
    "Input [100,5]SUM.BAS Opened 1\nGet 1 Block\nClose 0 Done\n\
     Input [100,5]X.BAS Failed 5\n\
     Input [100,5]X.BAS Opened 1\nGet 1 Block\nClose 0 Done\n\
     Input [100,5]X.BAS Opened 1\nGet 1 Block\nClose 0 Done\n\
     Input [100,5]X.BAS Opened 1\nGet 1 Block\nClose 0 Done\n",
)];

#[test]
fn run_with_a_name(rt: HostRuntime) -> Result<(), Fail> {
    expect_talks(rt.alloc(), &RUN)
}

static FULL_DISK: [Talk; 1] = [(
    &[
        ("10 STOP", ""),
        ("SAVE [1,2]A.B<42>", "?No room for user on device\nReady\n"),
        ("SAVE A", "?No room for user on device\nReady\n"),
    ],
    &[
        Answer::Opened(0),
        Answer::Failed(4),
        Answer::Done,
        Answer::Opened(0),
        Answer::Failed(4),
        Answer::Failed(9),
        Answer::Done,
    ],
    "Fresh [1,2]A.B<42> Opened 0\nPut 1 Failed 4\nClose 0 Done\n\
     Fresh [100,5]A.BAS Opened 0\nPut 1 Failed 4\nClose 0 Failed 9\n",
)];

#[test]
fn a_file_on_a_full_disk_stays_as_far_as_it_came(rt: HostRuntime) -> Result<(), Fail> {
    expect_talks(rt.alloc(), &FULL_DISK)
}

static EMPTY: [Talk; 1] = [(
    &[("SAVE", READY), ("REPLACE X", READY)],
    &[
        Answer::Opened(0),
        Answer::Done,
        Answer::Opened(0),
        Answer::Done,
        Answer::Done,
    ],
    "Fresh [100,5]NONAME.BAS Opened 0\nClose 0 Done\n\
     Output [100,5]X.BAS Opened 0\nClose 0 Done\n",
)];

#[test]
fn an_empty_program_has_no_block(rt: HostRuntime) -> Result<(), Fail> {
    expect_talks(rt.alloc(), &EMPTY)
}

static COMMANDS: [&str; 5] = ["OLD", "RUN", "SAVE", "REPLACE", "UNSAVE"];

static NO_NAMES: [Row; 8] = [
    ("DK:A", NO_DEVICE),
    ("SY:", ILLEGAL_NAME),
    (":A", ILLEGAL_NAME),
    ("TOOLONG", ILLEGAL_NAME),
    ("A.FOUR", ILLEGAL_NAME),
    ("A<64>", ILLEGAL_NAME),
    ("[0,1]A", ILLEGAL_NAME),
    (".BAS", ILLEGAL_NAME),
];

fn expect_no_names(alloc: Global, command: &str) -> Result<(), Fail> {
    for (tail, shown) in NO_NAMES.iter() {
        expect_no_name(alloc, command, tail, shown)?;
    }
    Ok(())
}

fn expect_no_name(alloc: Global, command: &str, tail: &str, shown: &str) -> Result<(), Fail> {
    let line = joined(alloc, &[command, " ", tail])?;
    expect_of_user(alloc, line.as_str(), shown)
}

#[test]
fn names_that_are_none(rt: HostRuntime) -> Result<(), Fail> {
    for command in COMMANDS.iter() {
        expect_no_names(rt.alloc(), command)?;
    }
    Ok(())
}

static CATALOGS: [Talk; 1] = [(
    &[
        ("CAT", READY),
        ("cat 100 , 6", "A     .BAS     -  <60>\nReady\n"),
        ("CAT[1,2]", READY),
        ("CAT [1,2", ILLEGAL_COMMAND),
    ],
    &[
        Answer::Failed(5),
        Answer::Named("A", 60, None),
        Answer::Failed(5),
        Answer::Failed(5),
        Answer::Done,
    ],
    "Directory 100,5 0 Failed 5\n\
     Directory 100,6 0 Name [100,5]A.BAS\nDirectory 100,6 1 Failed 5\n\
     Directory 1,2 0 Failed 5\n",
)];

#[test]
fn catalogs(rt: HostRuntime) -> Result<(), Fail> {
    expect_talks(rt.alloc(), &CATALOGS)
}

static EXPIRING: [Expiring; 5] = [
    (
        "OLD X",
        &[Answer::Done, Answer::Expired],
        "Input [100,5]X.BAS Expired\n",
    ),
    (
        "OLD X",
        &[Answer::Done, Answer::Opened(1), Answer::Expired],
        "Input [100,5]X.BAS Opened 1\nGet 1 Expired\n",
    ),
    (
        "SAVE",
        &[Answer::Done, Answer::Done],
        "Fresh [100,5]NONAME.BAS Done\n",
    ),
    (
        "UNSAVE X",
        &[Answer::Done, Answer::Expired],
        "Kill [100,5]X.BAS Expired\n",
    ),
    (
        "CAT",
        &[Answer::Done, Answer::Done],
        "Directory 100,5 0 Done\n",
    ),
];

#[test]
fn a_job_that_expires_at_a_file(rt: HostRuntime) -> Result<(), Fail> {
    expect_all_expiring(rt.alloc(), &EXPIRING)
}
