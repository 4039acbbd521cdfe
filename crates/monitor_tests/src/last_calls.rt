//! Records of several blocks, quotas, and the line printer.

use crate::asks::Ask::{
    Assign, Close, ClosePrinter, Deassign, Get, GetRecord, Login, Logout, Open, OpenPrinter, Print,
    PrintLong, Put, PutRecord, Tick, Unlock,
};
use crate::asks::Job::{One, Zero};
use crate::asks::Label::{First, Second};
use crate::asks::{NEIGHBOUR, OWNER};
use crate::replies::Said::{Block, Done, Expired, Failed, Opened, Record};
use crate::runs::{Row, expect_rows, expect_rows_over, volume_in_quota};
use monitor_calls::OpenKind::{Fresh, Input, Output};
use std::alloc::Global;
use std::test::Fail;

/// A file of four blocks on two channels of one job, and on one of another.
static RECORDS: [Row; 20] = [
    (Zero, Login(OWNER), Done),
    (One, Login(OWNER), Done),
    (Zero, Open(1, First, Fresh, None), Opened(0, true, true)),
    (Zero, PutRecord(1, 1, b"ABC"), Done),
    (Zero, Put(1, 4, 68), Done),
    (Zero, Open(2, First, Input, None), Opened(4, true, true)),
    (One, Open(1, First, Input, None), Opened(4, true, true)),
    (Zero, GetRecord(1, 1, 2), Record(b"AB")),
    (Zero, GetRecord(2, 2, 2), Failed(19)),
    (One, GetRecord(1, 3, 2), Record(b"CD")),
    (One, Unlock(1), Done),
    (Zero, GetRecord(2, 4, 2), Record(b"D")),
    (Zero, PutRecord(1, 3, b"XY"), Failed(19)),
    (One, Get(1, 1), Failed(19)),
    (One, Get(1, 2), Failed(19)),
    (Zero, Unlock(1), Done),
    (Zero, GetRecord(2, 2, 2), Record(b"BC")),
    (One, Get(1, 4), Block(68)),
    (One, Get(1, 3), Failed(19)),
    (One, GetRecord(1, 1, 2), Failed(19)),
];

#[test]
fn a_channel_holds_a_record_whole_or_not_at_all(rt: HostRuntime) -> Result<(), Fail> {
    expect_rows(rt.alloc(), 8, 100, &RECORDS)
}

/// What is no record, and what a file of two blocks grows to.
static RECORD_REFUSALS: [Row; 22] = [
    (Zero, Login(OWNER), Done),
    (Zero, Open(1, First, Fresh, None), Opened(0, true, true)),
    (Zero, PutRecord(1, 1, b"AB"), Done),
    (Zero, GetRecord(13, 1, 0), Failed(46)),
    (Zero, GetRecord(2, 1, 0), Failed(9)),
    (Zero, GetRecord(1, 0, 0), Failed(31)),
    (Zero, GetRecord(1, 9, 4), Failed(31)),
    (Zero, GetRecord(1, 0, 1), Failed(11)),
    (Zero, GetRecord(1, 3, 3), Failed(11)),
    (Zero, PutRecord(13, 1, b""), Failed(46)),
    (Zero, PutRecord(2, 1, b""), Failed(9)),
    (Zero, PutRecord(1, 1, b""), Failed(31)),
    (Zero, PutRecord(1, 1, b"ABCD"), Failed(31)),
    (Zero, PutRecord(1, 0, b"A"), Failed(31)),
    (Zero, PutRecord(1, 65534, b"ABC"), Failed(4)),
    (Zero, PutRecord(1, 7, b"ABC"), Failed(4)),
    (Zero, GetRecord(1, 2, 3), Record(b"B")),
    (Zero, PutRecord(1, 4, b"XYZ"), Done),
    (Zero, GetRecord(1, 2, 3), Record(b"B\0X")),
    (Zero, GetRecord(1, 5, 3), Record(b"YZ")),
    (Zero, PutRecord(1, 6, b"VW"), Done),
    (Zero, GetRecord(1, 5, 3), Record(b"YVW")),
];

#[test]
fn a_record_grows_a_file_whole_or_not_at_all(rt: HostRuntime) -> Result<(), Fail> {
    expect_rows(rt.alloc(), 8, 100, &RECORD_REFUSALS)
}

/// The owner has a quota of one block, on a disk of eight.
static IN_QUOTA: [Row; 8] = [
    (Zero, Login(OWNER), Done),
    (Zero, Open(1, First, Fresh, None), Opened(0, true, true)),
    (Zero, Put(1, 1, 65), Done),
    (Zero, Put(1, 2, 66), Failed(4)),
    (Zero, PutRecord(1, 1, b"AB"), Failed(4)),
    (Zero, Get(1, 1), Block(65)),
    (Zero, PutRecord(1, 1, b"C"), Done),
    (Zero, Open(2, Second, Output, None), Opened(0, true, true)),
];

#[test]
fn a_file_grows_in_its_owners_quota(rt: HostRuntime) -> Result<(), Fail> {
    expect_rows_in_quota(rt.alloc(), 1, &IN_QUOTA)
}

/// A neighbour, who has all blocks for files of his own, makes the owner's file anew.
static OVER_A_STRANGERS: [Row; 9] = [
    (Zero, Login(OWNER), Done),
    (Zero, Open(1, First, Fresh, Some(0)), Opened(0, true, true)),
    (Zero, PutRecord(1, 1, b"AB"), Done),
    (Zero, Close(1), Done),
    (One, Login(NEIGHBOUR), Done),
    (One, Open(1, First, Output, Some(0)), Opened(0, true, true)),
    (One, Put(1, 3, 67), Failed(4)),
    (One, PutRecord(1, 1, b"CD"), Done),
    (One, PutRecord(1, 2, b"EF"), Failed(4)),
];

#[test]
fn a_stranger_writes_in_the_owners_quota(rt: HostRuntime) -> Result<(), Fail> {
    expect_rows_in_quota(rt.alloc(), 2, &OVER_A_STRANGERS)
}

/// Fails with the place of the first row that is replied otherwise, over a disk of eight blocks
/// with this quota for the owner.
fn expect_rows_in_quota(alloc: Global, quota: u16, rows: &[Row]) -> Result<(), Fail> {
    let volume = volume_in_quota(alloc, 8, 100, quota)?;
    expect_rows_over(alloc, &volume, rows)
}

/// Two jobs ask for the printer.
static PRINTER: [Row; 24] = [
    (Zero, OpenPrinter, Failed(5)),
    (Zero, Login(OWNER), Done),
    (One, Login(NEIGHBOUR), Done),
    (Zero, Assign, Done),
    (One, Assign, Failed(8)),
    (One, OpenPrinter, Failed(8)),
    (One, Deassign, Failed(9)),
    (One, Print(65), Failed(9)),
    (One, ClosePrinter, Failed(9)),
    (Zero, Print(65), Failed(9)),
    (Zero, OpenPrinter, Done),
    (Zero, Deassign, Failed(3)),
    (Zero, Print(65), Done),
    (Zero, PrintLong, Failed(31)),
    (Zero, ClosePrinter, Done),
    (One, OpenPrinter, Failed(8)),
    (Zero, Deassign, Done),
    (One, OpenPrinter, Done),
    (One, OpenPrinter, Failed(3)),
    (Zero, OpenPrinter, Failed(8)),
    (One, Logout, Done),
    (Zero, OpenPrinter, Done),
    (Zero, ClosePrinter, Done),
    (Zero, ClosePrinter, Failed(9)),
];

#[test]
fn one_job_at_a_time_has_the_printer(rt: HostRuntime) -> Result<(), Fail> {
    expect_rows(rt.alloc(), 8, 100, &PRINTER)
}

/// An account of four calls: the fourth ends the job, and the printer is free.
static LAST_LISTING: [Row; 8] = [
    (Zero, Login(OWNER), Done),
    (One, Login(NEIGHBOUR), Done),
    (One, Assign, Done),
    (One, OpenPrinter, Done),
    (One, Tick, Done),
    (Zero, Assign, Failed(8)),
    (One, Tick, Expired),
    (Zero, Assign, Done),
];

#[test]
fn an_expired_job_has_no_printer(rt: HostRuntime) -> Result<(), Fail> {
    expect_rows(rt.alloc(), 8, 4, &LAST_LISTING)
}
