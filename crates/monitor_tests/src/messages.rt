//! Messages between jobs.

use crate::asks::Ask::{Declare, Login, Logout, Receive, Remove, Send, SendLong, Sleep, Status};
use crate::asks::Job::{One, Zero};
use crate::asks::Label::{First, Second};
use crate::asks::{OWNER, STRANGER};
use crate::expects::expect;
use crate::replies::Said::{Done, Failed, Message, State};
use crate::runs::{Row, Run, empty_volume, expect_rows};
use std::alloc::Global;
use std::test::Fail;

/// A receiver takes two messages, and a job and a name declare once.
static TWO_MESSAGES: [Row; 22] = [
    (Zero, Login(OWNER), Done),
    (One, Login(STRANGER), Done),
    (One, Send(First, 1), Failed(5)),
    (Zero, Declare(First, 0), Failed(18)),
    (Zero, Declare(First, 33), Failed(18)),
    (Zero, Declare(First, 2), Done),
    (Zero, Declare(Second, 2), Failed(16)),
    (One, Declare(First, 2), Failed(16)),
    (Zero, Receive, Failed(5)),
    (One, Send(First, 1), Done),
    (Zero, Send(First, 2), Done),
    (One, Send(First, 3), Failed(32)),
    (One, SendLong(First), Failed(18)),
    (Zero, Receive, Message(1, STRANGER, 1)),
    (One, Send(First, 3), Done),
    (Zero, Receive, Message(0, OWNER, 2)),
    (Zero, Receive, Message(1, STRANGER, 3)),
    (Zero, Receive, Failed(5)),
    (Zero, Remove, Done),
    (One, Send(First, 4), Failed(5)),
    (One, Status, State(1, STRANGER, 8)),
    (One, Sleep, Done),
];

#[test]
fn a_job_receives_in_the_order_of_sending(rt: HostRuntime) -> Result<(), Fail> {
    expect_rows(rt.alloc(), 8, 100, &TWO_MESSAGES)
}

/// What was sent to a job is gone when the job ends, and its receiver too.
static LOGGED_IN_AGAIN: [Row; 14] = [
    (Zero, Login(OWNER), Done),
    (One, Login(STRANGER), Done),
    (Zero, Declare(First, 2), Done),
    (One, Send(First, 1), Done),
    (Zero, Logout, Done),
    (One, Send(First, 2), Failed(5)),
    (Zero, Login(STRANGER), Done),
    (Zero, Receive, Failed(5)),
    (Zero, Declare(First, 2), Done),
    (Zero, Receive, Failed(5)),
    (One, Send(First, 3), Done),
    (Zero, Receive, Message(1, STRANGER, 3)),
    (Zero, Send(First, 4), Done),
    (Zero, Receive, Message(0, STRANGER, 4)),
];

#[test]
fn a_receiver_ends_with_its_job(rt: HostRuntime) -> Result<(), Fail> {
    expect_rows(rt.alloc(), 8, 100, &LOGGED_IN_AGAIN)
}

static DECLARED: [Row; 3] = [
    (Zero, Login(OWNER), Done),
    (One, Login(STRANGER), Done),
    (Zero, Declare(Second, 32), Done),
];

/// The 33rd message.
static ONE_MORE: [Row; 1] = [(One, Send(Second, 32), Failed(32))];

#[test]
fn a_full_queue_keeps_its_order(rt: HostRuntime) -> Result<(), Fail> {
    let mut run = open_empty(rt.alloc())?;
    expect_full_queue(&mut run, rt.alloc())
}

fn open_empty(alloc: Global) -> Result<Run, Fail> {
    let volume = empty_volume(alloc, 8, 100)?;
    Run::open(alloc, &volume)
}

/// Fails unless 32 messages are taken and no more, and are received in their order.
fn expect_full_queue(run: &mut Run, alloc: Global) -> Result<(), Fail> {
    run.expect_rows(alloc, &DECLARED)?;
    expect_sent(run, alloc, 32)?;
    run.expect_rows(alloc, &ONE_MORE)?;
    expect_received(run, alloc, 32)
}

/// Fails unless this many messages are taken, the first of byte 0, the next of byte 1.
fn expect_sent(run: &mut Run, alloc: Global, count: u8) -> Result<(), Fail> {
    for byte in 0..count {
        let is_sent = run.is_replied(alloc, One, Send(Second, byte), Done)?;
        expect(is_sent, "a message is not taken")?;
    }
    Ok(())
}

/// Fails unless these messages are received in their order.
fn expect_received(run: &mut Run, alloc: Global, count: u8) -> Result<(), Fail> {
    for byte in 0..count {
        let is_received = run.is_replied(alloc, Zero, Receive, Message(1, STRANGER, byte))?;
        expect(is_received, "another message is received")?;
    }
    Ok(())
}
