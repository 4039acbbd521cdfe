//! The message queues.

use crate::expects::expect_none;
use crate::names::{account, short};
use basic_values::{Fault, Text, Trouble};
use message_queues::Queues;
use monitor_model::Letter;
use std::alloc::Global;
use std::test::Fail;

/// What is done to the queues. Messages are of one byte.
#[derive(Clone, Copy)]
enum Step {
    /// The job, the receiver, and how many messages it takes.
    Declare(u32, &'static [u8], u8),
    Remove(u32),
    /// The receiver, the job that sends, and the byte.
    Send(&'static [u8], u32, u8),
    Receive(u32),
}

/// The answer to a step.
#[derive(Clone, Copy, PartialEq, Eq)]
enum Told {
    Done,
    Refused(u8),
    /// The job that sent a message, and its byte.
    From(u32, u8),
    Other,
}

type Row = (Step, Told);

fn letter(alloc: Global, job: u32, byte: u8) -> Result<Letter, Fail> {
    let text = Text::of(alloc, &[byte])?;
    Ok(Letter {
        job,
        account: account(100, 5),
        text,
    })
}

fn told_behind(alloc: Global, queues: &mut Queues, step: Step) -> Result<Told, Fail> {
    match step {
        Step::Declare(job, name, most) => Ok(declare(queues, job, name, most)?),
        Step::Remove(job) => {
            queues.remove(job);
            Ok(Told::Done)
        }
        Step::Send(name, job, byte) => send(queues, name, letter(alloc, job, byte)?),
        Step::Receive(job) => Ok(received(queues.receive(job))),
    }
}

fn declare(queues: &mut Queues, job: u32, name: &[u8], most: u8) -> Result<Told, Fail> {
    if !(1..=32).contains(&most) {
        return Ok(Told::Other);
    }
    match queues.declare(job, short(name)?, most) {
        Ok(()) => Ok(Told::Done),
        Err(Trouble::Refused(fault)) => Ok(Told::Refused(fault.number())),
        Err(Trouble::NoMemory) => Ok(Told::Other),
    }
}

fn send(queues: &mut Queues, name: &[u8], letter: Letter) -> Result<Told, Fail> {
    match queues.send(&short(name)?, letter) {
        Ok(()) => Ok(Told::Done),
        Err(fault) => Ok(Told::Refused(fault.number())),
    }
}

fn received(answer: Result<Letter, Fault>) -> Told {
    match answer {
        Ok(letter) => match letter.text.as_bytes() {
            [byte] => Told::From(letter.job, *byte),
            _ => Told::Other,
        },
        Err(fault) => Told::Refused(fault.number()),
    }
}

fn first_wrong(alloc: Global, rows: &[Row]) -> Result<Option<usize>, Fail> {
    let mut queues = Queues::new(alloc);
    for (place, (step, want)) in rows.iter().enumerate() {
        if told_behind(alloc, &mut queues, *step)? != *want {
            return Ok(Some(place));
        }
    }
    Ok(None)
}

static DECLARED: [Row; 5] = [
    (Step::Declare(3, b"ORDERS", 32), Told::Done),
    (Step::Declare(4, b"ORDERS", 32), Told::Refused(16)),
    (Step::Declare(3, b"OTHER", 1), Told::Refused(16)),
    (Step::Remove(3), Told::Done),
    (Step::Declare(4, b"ORDERS", 1), Told::Done),
];

#[test]
fn a_name_and_a_job_declare_once(rt: HostRuntime) -> Result<(), Fail> {
    expect_none(rt.alloc(), first_wrong(rt.alloc(), &DECLARED)?)
}

static SENT: [Row; 11] = [
    (Step::Send(b"ORDERS", 1, b'A'), Told::Refused(5)),
    (Step::Declare(3, b"ORDERS", 2), Told::Done),
    (Step::Send(b"ORDERS", 1, b'A'), Told::Done),
    (Step::Send(b"ORDERS", 2, b'B'), Told::Done),
    (Step::Send(b"ORDERS", 1, b'C'), Told::Refused(32)),
    (Step::Receive(3), Told::From(1, b'A')),
    (Step::Send(b"ORDERS", 4, b'D'), Told::Done),
    (Step::Receive(3), Told::From(2, b'B')),
    (Step::Receive(3), Told::From(4, b'D')),
    (Step::Receive(3), Told::Refused(5)),
    (Step::Receive(4), Told::Refused(5)),
];

#[test]
fn letters_come_in_their_order_up_to_the_most(rt: HostRuntime) -> Result<(), Fail> {
    expect_none(rt.alloc(), first_wrong(rt.alloc(), &SENT)?)
}
