//! The disk that a monitor leaves, from which another one opens.

use crate::asks::Ask::{Close, Get, Listed, Login, Logout, Open, Put, PutRecord, Rename};
use crate::asks::Job::{One, Zero};
use crate::asks::Label::{First, Second, Third};
use crate::asks::{NEIGHBOUR, OWNER};
use crate::expects::expect;
use crate::replies::Said::{Block, Done, Failed, Name, Opened};
use crate::runs::{Row, Run, empty_volume, expect_rows_over};
use monitor_calls::OpenKind::{Fresh, Input, Output};
use std::test::Fail;

/// Three files are made; the first is renamed, and the third made anew. A channel stays open.
static LEFT: [Row; 13] = [
    (Zero, Login(OWNER), Done),
    (
        Zero,
        Open(1, First, Fresh, Some(200)),
        Opened(0, true, true),
    ),
    (Zero, PutRecord(1, 1, &[65, 66]), Done),
    (Zero, Put(1, 4, 68), Done),
    (Zero, Close(1), Done),
    (Zero, Open(2, Third, Fresh, Some(64)), Opened(0, true, true)),
    (Zero, Put(2, 3, 90), Done),
    (Zero, Close(2), Done),
    (Zero, Open(2, Third, Output, Some(0)), Opened(0, true, true)),
    (Zero, Put(2, 2, 67), Done),
    (Zero, Rename(First, Second), Done),
    (One, Login(NEIGHBOUR), Done),
    (Zero, Get(2, 2), Block(67)),
];

/// What is on the disk, for a job that nothing is open for.
static FOUND: [Row; 14] = [
    (Zero, Get(2, 2), Failed(5)),
    (Zero, Login(OWNER), Done),
    (Zero, Get(2, 2), Failed(9)),
    (Zero, Listed(0), Name(Third, 0, Some(2))),
    (Zero, Listed(1), Name(Second, 200, Some(4))),
    (Zero, Listed(2), Failed(5)),
    (Zero, Open(1, Second, Input, None), Opened(4, true, true)),
    (Zero, Get(1, 1), Block(65)),
    (Zero, Get(1, 2), Block(66)),
    (Zero, Get(1, 3), Block(0)),
    (Zero, Get(1, 4), Block(68)),
    (Zero, Open(2, Third, Input, None), Opened(2, true, true)),
    (Zero, Get(2, 2), Block(67)),
    (Zero, Logout, Done),
];

#[test]
fn a_monitor_opens_from_the_disk_of_another(rt: HostRuntime) -> Result<(), Fail> {
    let alloc = rt.alloc();
    let mut run = Run::open(alloc, &empty_volume(alloc, 8, 100)?)?;
    run.expect_rows(alloc, &LEFT)?;
    let volume = run.into_volume()?;
    expect(volume.blocks == 8, "another number of blocks")?;
    expect(volume.accounts.len() == 3, "another number of accounts")?;
    expect_rows_over(alloc, &volume, &FOUND)
}
