//! Blocks that channels hold.

use crate::asks::Ask::{Close, Get, Login, Open, Put, Tick, Unlock};
use crate::asks::Job::{One, Zero};
use crate::asks::Label::First;
use crate::asks::{NEIGHBOUR, OWNER};
use crate::replies::Said::{Block, Done, Expired, Failed, Opened};
use crate::runs::{Row, expect_rows};
use monitor_calls::OpenKind::{Either, Fresh, Input};
use std::test::Fail;

/// Three channels of two jobs on one file of two blocks, which take its first block in turn.
static IN_TURN: [Row; 19] = [
    (Zero, Login(OWNER), Done),
    (One, Login(OWNER), Done),
    (Zero, Open(1, First, Fresh, None), Opened(0, true, true)),
    (Zero, Put(1, 2, 65), Done),
    (Zero, Open(2, First, Either, None), Opened(2, true, true)),
    (One, Open(1, First, Input, None), Opened(2, true, true)),
    (Zero, Get(1, 1), Block(0)),
    (Zero, Get(2, 1), Failed(19)),
    (One, Get(1, 1), Failed(19)),
    (One, Get(1, 2), Block(65)),
    (Zero, Put(1, 2, 66), Failed(19)),
    (Zero, Put(1, 1, 66), Done),
    (Zero, Get(2, 1), Block(66)),
    (One, Get(1, 1), Failed(19)),
    (Zero, Close(2), Done),
    (One, Get(1, 1), Block(66)),
    (Zero, Get(1, 2), Block(65)),
    (One, Unlock(1), Done),
    (Zero, Get(1, 1), Block(66)),
];

#[test]
fn channels_hold_a_block_in_turn(rt: HostRuntime) -> Result<(), Fail> {
    expect_rows(rt.alloc(), 8, 100, &IN_TURN)
}

/// An account of five calls: the fifth ends the job, and what it held is free.
static LAST_CALL: [Row; 11] = [
    (Zero, Login(OWNER), Done),
    (One, Login(NEIGHBOUR), Done),
    (Zero, Open(1, First, Fresh, Some(0)), Opened(0, true, true)),
    (Zero, Put(1, 1, 65), Done),
    (Zero, Get(1, 1), Block(65)),
    (One, Open(1, First, Input, None), Opened(1, true, true)),
    (One, Get(1, 1), Failed(19)),
    (Zero, Tick, Done),
    (Zero, Tick, Expired),
    (One, Get(1, 1), Block(65)),
    (Zero, Tick, Failed(5)),
];

#[test]
fn an_expired_job_holds_nothing(rt: HostRuntime) -> Result<(), Fail> {
    expect_rows(rt.alloc(), 8, 5, &LAST_CALL)
}
