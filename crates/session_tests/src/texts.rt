//! The text of a program: what is typed, and what LIST shows of it.

use crate::talks::{
    ILLEGAL_COMMAND, ILLEGAL_NAME, ILLEGAL_NUMBER, READY, Row, SYNTAX, expect_of_lines,
};
use std::test::Fail;

static STORED: [Row; 8] = [
    ("30 PRINT 3%", ""),
    ("10 print 1%", ""),
    ("20   PRINT 2% ", ""),
    ("0010 PRINT 4%", ""),
    (
        "LIST",
        "NONAME\n10 PRINT 4%\n20   PRINT 2% \n30 PRINT 3%\nReady\n",
    ),
    ("20", ""),
    ("40 ", ""),
    (" listnh", "10 PRINT 4%\n30 PRINT 3%\n40 \nReady\n"),
];

#[test]
fn lines_stand_in_the_order_of_their_numbers(rt: HostRuntime) -> Result<(), Fail> {
    expect_of_lines(rt.alloc(), &STORED)
}

static REFUSED: [Row; 6] = [
    ("10 PRINT 1%", ""),
    ("10 PRINT 1%+", SYNTAX),
    ("0 PRINT 1%", ILLEGAL_NUMBER),
    ("32768", ILLEGAL_NUMBER),
    ("PRINT 7%", " 7 \nReady\n"),
    ("LISTNH", "10 PRINT 1%\nReady\n"),
];

#[test]
fn a_refused_line_leaves_the_text(rt: HostRuntime) -> Result<(), Fail> {
    expect_of_lines(rt.alloc(), &REFUSED)
}

static LISTED: [Row; 8] = [
    ("1 STOP", ""),
    ("20 STOP", ""),
    ("300 STOP", ""),
    ("LISTNH 20", "20 STOP\nReady\n"),
    ("LISTNH 21", READY),
    ("LISTNH 0 02 - 32767", "20 STOP\n300 STOP\nReady\n"),
    ("LISTNH1-20", "1 STOP\n20 STOP\nReady\n"),
    ("list 300-1", "NONAME\nReady\n"),
];

#[test]
fn ranges_are_listed(rt: HostRuntime) -> Result<(), Fail> {
    expect_of_lines(rt.alloc(), &LISTED)
}

static NO_RANGES: [Row; 10] = [
    ("LIST 0", ILLEGAL_COMMAND),
    ("LISTNH 1-32768", ILLEGAL_COMMAND),
    ("LIST 1-", ILLEGAL_COMMAND),
    ("LIST -1", ILLEGAL_COMMAND),
    ("LIST 1-2-3", ILLEGAL_COMMAND),
    ("LIST A", ILLEGAL_COMMAND),
    ("LIST 1,2", ILLEGAL_COMMAND),
    ("DELETE", ILLEGAL_COMMAND),
    ("DELETE X", ILLEGAL_COMMAND),
    ("DELETE 0-5", ILLEGAL_COMMAND),
];

#[test]
fn tails_that_are_no_range(rt: HostRuntime) -> Result<(), Fail> {
    expect_of_lines(rt.alloc(), &NO_RANGES)
}

static DELETED: [Row; 10] = [
    ("1 STOP", ""),
    ("2 STOP", ""),
    ("3 STOP", ""),
    ("4 STOP", ""),
    ("delete 2-3", READY),
    ("DELETE 5", READY),
    ("DELETE 4-1", READY),
    ("LISTNH", "1 STOP\n4 STOP\nReady\n"),
    ("DELETE 1", READY),
    ("LISTNH", "4 STOP\nReady\n"),
];

#[test]
fn lines_are_deleted(rt: HostRuntime) -> Result<(), Fail> {
    expect_of_lines(rt.alloc(), &DELETED)
}

static NAMED: [Row; 12] = [
    ("1 STOP", ""),
    ("RENAME de mo", READY),
    ("LIST", "DEMO\n1 STOP\nReady\n"),
    ("RENAME", ILLEGAL_COMMAND),
    ("RENAME SEVENTH", ILLEGAL_NAME),
    ("NEW X.BAS", ILLEGAL_NAME),
    ("LIST", "DEMO\n1 STOP\nReady\n"),
    ("new x1", READY),
    ("LIST", "X1\nReady\n"),
    ("2 STOP", ""),
    ("NEW", READY),
    ("LIST", "NONAME\nReady\n"),
];

#[test]
fn programs_have_names(rt: HostRuntime) -> Result<(), Fail> {
    expect_of_lines(rt.alloc(), &NAMED)
}
