//! Files that grow, and a disk that is full.

use crate::asks::Ask::{Close, Get, Kill, Login, Open, Put};
use crate::asks::Job::Zero;
use crate::asks::Label::{First, Second};
use crate::asks::OWNER;
use crate::replies::Said::{Block, Done, Failed, Opened};
use crate::runs::{Row, expect_rows};
use monitor_calls::OpenKind::Fresh;
use std::test::Fail;

/// The blocks were another file's before: a file of two of them is extended to four.
static HOLE: [Row; 16] = [
    (Zero, Login(OWNER), Done),
    (Zero, Open(1, First, Fresh, None), Opened(0, true, true)),
    (Zero, Put(1, 4, 90), Done),
    (Zero, Close(1), Done),
    (Zero, Kill(First), Done),
    (Zero, Open(1, Second, Fresh, None), Opened(0, true, true)),
    (Zero, Put(1, 1, 65), Done),
    (Zero, Put(1, 2, 66), Done),
    (Zero, Get(1, 3), Failed(11)),
    (Zero, Put(1, 0, 67), Failed(31)),
    (Zero, Put(1, 4, 68), Done),
    (Zero, Get(1, 2), Block(66)),
    (Zero, Get(1, 3), Block(0)),
    (Zero, Get(1, 4), Block(68)),
    (Zero, Get(1, 5), Failed(11)),
    (Zero, Put(1, 6, 69), Failed(4)),
];

#[test]
fn a_file_grows_over_a_hole_of_zeros(rt: HostRuntime) -> Result<(), Fail> {
    expect_rows(rt.alloc(), 5, 100, &HOLE)
}

/// What does not fit on a disk of three blocks fits after a Kill.
static FULL: [Row; 8] = [
    (Zero, Login(OWNER), Done),
    (Zero, Open(1, First, Fresh, None), Opened(0, true, true)),
    (Zero, Put(1, 2, 65), Done),
    (Zero, Close(1), Done),
    (Zero, Open(2, Second, Fresh, None), Opened(0, true, true)),
    (Zero, Put(2, 2, 66), Failed(4)),
    (Zero, Kill(First), Done),
    (Zero, Put(2, 2, 66), Done),
];

#[test]
fn a_full_disk_has_room_behind_a_kill(rt: HostRuntime) -> Result<(), Fail> {
    expect_rows(rt.alloc(), 3, 100, &FULL)
}
