//! What codes leave to jobs of other accounts.

use crate::asks::Ask::{Close, Get, Guess, Kill, Listed, Login, Open, Put, Rename, Status};
use crate::asks::Job::{One, Zero};
use crate::asks::Label::{First, Second, Third};
use crate::asks::{NEIGHBOUR, OWNER, STRANGER, file};
use crate::replies::Said::{Block, Done, Failed, Name, Opened, State};
use crate::runs::{Row, accounts, expect_rows, expect_rows_over};
use crate::volumes::file_entry;
use monitor_calls::OpenKind::{Fresh, Input, Output};
use monitor_calls::Volume;
use std::alloc::Global;
use std::test::Fail;

/// Another account may read the file, and may not write it.
static ONE_FILE: [Row; 13] = [
    (Zero, Login(OWNER), Done),
    (One, Login(NEIGHBOUR), Done),
    (Zero, Open(1, First, Fresh, Some(40)), Opened(0, true, true)),
    (Zero, Put(1, 1, 65), Done),
    (One, Open(2, First, Input, None), Opened(1, true, false)),
    (One, Get(2, 1), Block(65)),
    (One, Put(2, 1, 66), Failed(10)),
    (Zero, Kill(First), Failed(3)),
    (One, Kill(First), Failed(10)),
    (One, Close(2), Done),
    (Zero, Close(1), Done),
    (Zero, Kill(First), Done),
    (Zero, Kill(First), Failed(5)),
];

#[test]
fn a_code_leaves_another_account_no_writing(rt: HostRuntime) -> Result<(), Fail> {
    expect_rows(rt.alloc(), 8, 100, &ONE_FILE)
}

/// Each job acts for the account that it logged in to, and a job without one does nothing.
static OWN_ACCOUNTS: [Row; 6] = [
    (One, Guess(OWNER), Failed(5)),
    (One, Login(OWNER), Done),
    (Zero, Status, Failed(5)),
    (One, Status, State(1, OWNER, 1)),
    (Zero, Login(NEIGHBOUR), Done),
    (Zero, Status, State(0, NEIGHBOUR, 1)),
];

#[test]
fn a_job_acts_for_its_own_account(rt: HostRuntime) -> Result<(), Fail> {
    expect_rows(rt.alloc(), 8, 100, &OWN_ACCOUNTS)
}

/// The first file of the volume is denied to the stranger, the second is not.
static DIRECTORY: [Row; 14] = [
    (Zero, Login(OWNER), Done),
    (One, Login(STRANGER), Done),
    (Zero, Listed(0), Name(First, 60, Some(2))),
    (One, Listed(0), Name(First, 60, None)),
    (One, Listed(1), Name(Second, 0, Some(3))),
    (One, Listed(2), Failed(5)),
    (One, Open(1, First, Input, None), Failed(10)),
    (One, Open(1, Third, Output, None), Failed(10)),
    (Zero, Rename(First, Third), Done),
    (Zero, Listed(0), Name(Second, 0, Some(3))),
    (Zero, Listed(1), Name(Third, 60, Some(2))),
    (Zero, Rename(Third, Second), Failed(16)),
    (Zero, Open(1, Second, Output, None), Opened(0, true, true)),
    (Zero, Listed(1), Name(Second, 60, Some(0))),
];

#[test]
fn a_denied_file_tells_no_blocks(rt: HostRuntime) -> Result<(), Fail> {
    let volume = volume(rt.alloc())?;
    expect_rows_over(rt.alloc(), &volume, &DIRECTORY)
}

/// Returns a file of two blocks with the code 60, and one of three with the code 0.
fn volume(alloc: Global) -> Result<Volume, Fail> {
    let accounts = accounts(alloc, 100)?;
    let mut files = Vec::new(alloc);
    files.push(file_entry(alloc, file(First)?, 60, 2)?)?;
    files.push(file_entry(alloc, file(Second)?, 0, 3)?)?;
    Ok(Volume {
        blocks: 8,
        accounts,
        files,
    })
}
