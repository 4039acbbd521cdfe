//! Pages that are read and written, and files that are deleted.

use crate::scripts::{Said, ending, expect_asked, named, page_of, port_of};
use monitor_calls::{FileName, OpenKind, Page, ScriptPort};
use program_files::{kill_file, read_pages, write_pages};
use std::alloc::Global;
use std::test::Fail;

/// The replies of a port, the requests to it, and how the call ends.
type Row = (&'static [Said], &'static str, u8);

/// Fails unless reading a file makes these requests and ends in this way.
fn expect_read(alloc: Global, row: &Row) -> Result<(), Fail> {
    let mut port = port_of(alloc, row.0)?;
    let pages = read_pages(alloc, &mut port, named(b"DEMO", b"BAS")?, Some(40));
    expect_asked(alloc, &port, row.1, ending(&pages), row.2)
}

fn expect_reads(alloc: Global, rows: &[Row]) -> Result<(), Fail> {
    for row in rows {
        expect_read(alloc, row)?;
    }
    Ok(())
}

fn two_pages(alloc: Global) -> Result<Vec<Page>, Fail> {
    let mut pages = Vec::new(alloc);
    pages.push(page_of(alloc, 65)?)?;
    pages.push(page_of(alloc, 66)?)?;
    Ok(pages)
}

/// Fails unless writing two pages makes these requests and ends in this way.
fn expect_written(alloc: Global, kind: OpenKind, row: &Row) -> Result<(), Fail> {
    let mut port = port_of(alloc, row.0)?;
    let (name, pages) = (named(b"DEMO", b"BAS")?, two_pages(alloc)?);
    let written = write_pages(alloc, &mut port, name, kind, None, pages);
    expect_asked(alloc, &port, row.1, ending(&written), row.2)
}

/// Returns whether there are two pages, which begin with A and with B.
fn are_a_and_b(pages: &[Page]) -> bool {
    pages.len() == 2 && pages[0].as_bytes()[0] == b'A' && pages[1].as_bytes()[0] == b'B'
}

/// Fails unless these are the pages of a file.
fn expect_a_and_b(alloc: Global, port: &mut ScriptPort, name: FileName) -> Result<(), Fail> {
    match read_pages(alloc, port, name, None) {
        Ok(pages) if are_a_and_b(pages.as_slice()) => Ok(()),
        _ => Err(Fail::from("the pages do not come in order")),
    }
}

static TWO_BLOCKS: [Said; 4] = [
    Said::Opened(2),
    Said::Block(65),
    Said::Block(66),
    Said::Done,
];

#[test]
fn pages_come_in_order(rt: HostRuntime) -> Result<(), Fail> {
    let mut port = port_of(rt.alloc(), &TWO_BLOCKS)?;
    expect_a_and_b(rt.alloc(), &mut port, named(b"DEMO", b"BAS")?)?;
    let requests = "input 0 false 99\nget 0 1\nget 0 2\nclose 0\n";
    expect_asked(rt.alloc(), &port, requests, 0, 0)
}

static NO_BLOCKS: Row = (
    &[Said::Opened(0), Said::Done],
    "input 0 false 40\nclose 0\n",
    0,
);

#[test]
fn a_file_without_blocks_is_closed(rt: HostRuntime) -> Result<(), Fail> {
    expect_read(rt.alloc(), &NO_BLOCKS)
}

static NOT_OPENED: [Row; 5] = [
    (&[Said::Failed(5)], "input 0 false 40\n", 5),
    (&[Said::Failed(10)], "input 0 false 40\n", 10),
    (&[Said::Expired], "input 0 false 40\n", 100),
    (&[Said::Done], "input 0 false 40\n", 100),
    (&[Said::Failed(71)], "input 0 false 40\n", 100),
];

#[test]
fn what_was_not_opened_is_not_closed(rt: HostRuntime) -> Result<(), Fail> {
    expect_reads(rt.alloc(), &NOT_OPENED)
}

const TO_THE_SECOND: &str = "input 0 false 40\nget 0 1\nget 0 2\nclose 0\n";

static REFUSED_BLOCKS: [Row; 4] = [
    (
        &[
            Said::Opened(3),
            Said::Block(65),
            Said::Failed(11),
            Said::Done,
        ],
        TO_THE_SECOND,
        11,
    ),
    (
        &[
            Said::Opened(3),
            Said::Block(65),
            Said::Failed(11),
            Said::Failed(9),
        ],
        TO_THE_SECOND,
        11,
    ),
    (
        &[
            Said::Opened(3),
            Said::Block(65),
            Said::Failed(11),
            Said::Expired,
        ],
        TO_THE_SECOND,
        100,
    ),
    (
        &[
            Said::Opened(3),
            Said::Block(65),
            Said::Failed(11),
            Said::Failed(0),
        ],
        TO_THE_SECOND,
        100,
    ),
];

#[test]
fn a_block_that_is_refused_in_the_middle(rt: HostRuntime) -> Result<(), Fail> {
    expect_reads(rt.alloc(), &REFUSED_BLOCKS)
}

static JOB_ENDS: [Row; 2] = [
    (
        &[Said::Opened(1), Said::Expired],
        "input 0 false 40\nget 0 1\n",
        100,
    ),
    (
        &[Said::Opened(1), Said::Done],
        "input 0 false 40\nget 0 1\n",
        100,
    ),
];

#[test]
fn what_ends_the_job_closes_nothing(rt: HostRuntime) -> Result<(), Fail> {
    expect_reads(rt.alloc(), &JOB_ENDS)
}

static REFUSED_CLOSING: Row = (
    &[Said::Opened(0), Said::Failed(9)],
    "input 0 false 40\nclose 0\n",
    9,
);

#[test]
fn a_closing_that_is_refused_is_told(rt: HostRuntime) -> Result<(), Fail> {
    expect_read(rt.alloc(), &REFUSED_CLOSING)
}

static MADE: Row = (
    &[Said::Opened(0), Said::Done, Said::Done, Said::Done],
    "fresh 0 false 99\nput 0 1 65\nput 0 2 66\nclose 0\n",
    0,
);

static REPLACED: Row = (
    &[Said::Opened(7), Said::Done, Said::Done, Said::Done],
    "output 0 false 99\nput 0 1 65\nput 0 2 66\nclose 0\n",
    0,
);

#[test]
fn pages_are_written_in_order(rt: HostRuntime) -> Result<(), Fail> {
    expect_written(rt.alloc(), OpenKind::Fresh, &MADE)?;
    expect_written(rt.alloc(), OpenKind::Output, &REPLACED)
}

static FULL_DISKS: [Row; 2] = [
    (
        &[Said::Opened(0), Said::Done, Said::Failed(4), Said::Done],
        "fresh 0 false 99\nput 0 1 65\nput 0 2 66\nclose 0\n",
        4,
    ),
    (
        &[
            Said::Opened(0),
            Said::Done,
            Said::Failed(4),
            Said::Failed(9),
        ],
        "fresh 0 false 99\nput 0 1 65\nput 0 2 66\nclose 0\n",
        4,
    ),
];

#[test]
fn a_disk_that_is_full(rt: HostRuntime) -> Result<(), Fail> {
    for row in FULL_DISKS.iter() {
        expect_written(rt.alloc(), OpenKind::Fresh, row)?;
    }
    Ok(())
}

static NAME_IS_THERE: Row = (&[Said::Failed(16)], "fresh 0 false 99\n", 16);

#[test]
fn a_name_that_is_there(rt: HostRuntime) -> Result<(), Fail> {
    expect_written(rt.alloc(), OpenKind::Fresh, &NAME_IS_THERE)
}

/// A reply to the call that deletes a file, and how the call ends.
static KILLED: [(Said, u8); 4] = [
    (Said::Done, 0),
    (Said::Failed(5), 5),
    (Said::Failed(71), 100),
    (Said::Expired, 100),
];

fn expect_killed(alloc: Global, said: Said, wanted: u8) -> Result<(), Fail> {
    let mut port = port_of(alloc, &[said])?;
    let killed = kill_file(alloc, &mut port, named(b"DEMO", b"BAS")?);
    expect_asked(alloc, &port, "kill\n", ending(&killed), wanted)
}

#[test]
fn a_file_is_taken_away(rt: HostRuntime) -> Result<(), Fail> {
    for (said, wanted) in KILLED.iter() {
        expect_killed(rt.alloc(), *said, *wanted)?;
    }
    Ok(())
}
