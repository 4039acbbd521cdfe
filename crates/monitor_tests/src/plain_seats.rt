//! A seat at a monitor of its own, which keeps its calls.

use crate::asks::Ask::{self, GetRecord, Guess, Login, Logout, Open, PutRecord, Status, Tick};
use crate::asks::Label::First;
use crate::asks::{NEIGHBOUR, OWNER, request};
use crate::expects::expect_none;
use crate::replies::Said::{self, Done, Expired, Failed, Opened, Record, State};
use crate::runs::empty_volume;
use monitor_calls::OpenKind::Fresh;
use monitor_calls::{RunRecord, Volume};
use monitor_core::{Monitor, PlainSeat, Seat};
use std::alloc::Global;
use std::test::Fail;

/// What the seat's job asks, and the expected reply.
type Call = (Ask, Said);

/// An account of three calls: the third ends the job.
static CALLS: [Call; 9] = [
    (Guess(OWNER), Failed(5)),
    (Tick, Failed(5)),
    (Login(OWNER), Done),
    (Tick, Done),
    (Login(NEIGHBOUR), Failed(3)),
    (Tick, Expired),
    (Login(NEIGHBOUR), Done),
    (Status, State(0, NEIGHBOUR, 1)),
    (Logout, Done),
];

#[test]
fn a_seat_keeps_what_was_asked(rt: HostRuntime) -> Result<(), Fail> {
    expect_none(rt.alloc(), wrong_call(rt.alloc(), 3, &CALLS)?)
}

/// Records of three blocks and of fewer, whose pages the history has too.
static RECORDS: [Call; 8] = [
    (GetRecord(1, 1, 3), Failed(5)),
    (Login(OWNER), Done),
    (GetRecord(1, 1, 3), Failed(9)),
    (Open(1, First, Fresh, None), Opened(0, true, true)),
    (PutRecord(1, 1, b"ABCD"), Failed(31)),
    (PutRecord(1, 1, b"ABC"), Done),
    (GetRecord(1, 1, 3), Record(b"ABC")),
    (GetRecord(1, 2, 3), Record(b"BC")),
];

#[test]
fn a_seat_keeps_the_pages_of_records(rt: HostRuntime) -> Result<(), Fail> {
    expect_none(rt.alloc(), wrong_call(rt.alloc(), 100, &RECORDS)?)
}

/// Returns the place of the first call that the seat kept with another reply, or of the end if it
/// kept more or fewer.
fn wrong_call(alloc: Global, limit: u16, calls: &[Call]) -> Result<Option<usize>, Fail> {
    let record = kept(alloc, limit, calls)?;
    if record.as_slice().len() != calls.len() {
        return Ok(Some(calls.len()));
    }
    Ok(
        record.as_slice().iter().zip(calls.iter()).position(|(entry, (_, said))| entry.job != 0
            || !said.is_reply(&entry.reply)),
    )
}

/// Returns what the seat kept of the calls.
fn kept(alloc: Global, limit: u16, calls: &[Call]) -> Result<RunRecord, Fail> {
    let volume = empty_volume(alloc, 8, limit)?;
    let mut seat = opened(alloc, &volume)?;
    ask_all(&mut seat, alloc, calls)?;
    Ok(seat.close())
}

fn opened(alloc: Global, volume: &Volume) -> Result<PlainSeat, Fail> {
    if !volume.is_good() {
        return Err(Fail::new("the volume is not good"));
    }
    let monitor = Monitor::open(alloc, volume, 1)?;
    Ok(PlainSeat::new(alloc, monitor, 0))
}

fn ask_all<S: Seat>(seat: &mut S, alloc: Global, calls: &[Call]) -> Result<(), Fail> {
    for (ask, _) in calls.iter() {
        let request = request(alloc, *ask)?;
        let _ = seat.ask(alloc, request)?;
    }
    Ok(())
}
