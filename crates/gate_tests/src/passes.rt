//! Seats that are split off, ask in turn, and are joined.

ghost use Rattle.std.specs.Prelude.{◌≡◌};

use crate::expects::{expect, expect_none};
use crate::volumes::{login, opened};
use basic_values::NoMemory;
use monitor_calls::{Entry, Reply, Request, RunRecord};
use monitor_gate::{Gate, JobSeat};
use report_texts::push_request;
use std::alloc::Global;
use std::sync::Wait;
use std::test::Fail;

/// What entries are asked in turn: the job, and what it asks, as a history has it.
static WANTED: [(u32, &str); 3] = [(1, "TICK"), (0, "LOGIN 100,5 44454d4f"), (0, "LOGOUT")];

/// Returns whether an entry is of this job and asks this.
fn asks(
    alloc: Global,
    entry: &Entry,
    wanted: Option<&(u32, &'static str)>,
) -> Result<bool, NoMemory> {
    let mut text = Vec::new(alloc);
    push_request(&mut text, &entry.request)?;
    match wanted {
        Some((job, asked)) => Ok(entry.job == *job && text.as_slice() == asked.as_bytes()),
        None => Ok(false),
    }
}

/// Returns the place of the first entry that another job asks, or that asks another thing.
fn first_other(alloc: Global, record: &RunRecord) -> Result<Option<usize>, NoMemory> {
    let entries = record.as_slice();
    if entries.len() != WANTED.len() {
        return Ok(Some(WANTED.len()));
    }
    let mut place = 0usize;
    for entry in entries {
        if !asks(alloc, entry, WANTED.get(place))? {
            return Ok(Some(place));
        }
        place = place.saturating_add(1);
    }
    Ok(None)
}

/// Returns whether the monitor does what the job of a seat asks.
fn is_done<R: Wait>(
    rt: &R,
    alloc: Global,
    gate: &Gate,
    seat: &mut JobSeat,
    request: Request,
) -> Result<bool, NoMemory>
    requires { seat.old.gate ≡ gate.now.gate }
    ensures { seat.new.gate ≡ seat.old.gate }
{
    Ok(matches!(gate.ask(rt, alloc, seat, request)?, Reply::Done))
}

/// Returns which calls are done: one of a job before its login, and the login and the logout of
/// another.
fn done_in_turn<R: Wait>(
    rt: &R,
    alloc: Global,
    gate: &Gate,
    first: &mut JobSeat,
    second: &mut JobSeat,
    entering: Request,
) -> Result<[bool; 3], NoMemory>
    requires first { first.old.gate ≡ gate.now.gate }
    requires second { second.old.gate ≡ gate.now.gate }
    ensures first { first.new.gate ≡ first.old.gate }
    ensures second { second.new.gate ≡ second.old.gate }
{
    let early = is_done(rt, alloc, gate, second, Request::Tick);
    let entered = is_done(rt, alloc, gate, first, entering);
    let left = is_done(rt, alloc, gate, first, Request::Logout);
    Ok([early?, entered?, left?])
}

/// Fails unless the job was refused before its login, and the record has what was asked in turn.
fn expect_kept(alloc: Global, done: [bool; 3], record: &RunRecord) -> Result<(), Fail> {
    let [early, entered, left] = done;
    expect(!early && entered && left, "another reply")?;
    expect_none(alloc, first_other(alloc, record)?)
}

/// Fails unless the calls were done, that was kept, and the monitor has two jobs.
fn expect_closed(
    alloc: Global,
    done: Result<[bool; 3], NoMemory>,
    record: &RunRecord,
    jobs: u32,
) -> Result<(), Fail> {
    expect(jobs == 2, "another monitor")?;
    expect_kept(alloc, done?, record)
}

#[test]
fn seats_ask_one_monitor(rt: HostRuntime) -> Result<(), Fail> {
    let alloc = rt.alloc();
    let entering = login()?;
    let monitor = opened(alloc, 2)?;
    let (gate, mut spare) = Gate::new(alloc, monitor)?;
    let mut first = gate.split(&mut spare);
    let mut second = gate.split(&mut spare);
    let done = done_in_turn(&rt, alloc, &gate, &mut first, &mut second, entering);
    gate.join(&mut spare, second);
    gate.join(&mut spare, first);
    let (record, monitor) = gate.close(spare);
    expect_closed(alloc, done, &record, monitor.job_count())
}

/// Returns whether a seat asks in vain.
fn is_away<R: Wait>(rt: &R, alloc: Global, gate: &Gate, seat: &mut JobSeat) -> bool
    requires { seat.old.gate ≡ gate.now.gate }
    ensures { seat.new.gate ≡ seat.old.gate }
{
    gate.ask(rt, alloc, seat, Request::Tick).is_err()
}

/// Shuts the gate after a first call. Returns whether that call was in vain, and whether each seat
/// then asks in vain.
fn away_in_turn<R: Wait>(
    rt: &R,
    alloc: Global,
    gate: &Gate,
    first: &mut JobSeat,
    second: &mut JobSeat,
) -> [bool; 3]
    requires first { first.old.gate ≡ gate.now.gate }
    requires second { second.old.gate ≡ gate.now.gate }
    ensures first { first.new.gate ≡ first.old.gate }
    ensures second { second.new.gate ≡ second.old.gate }
{
    let early = is_away(rt, alloc, gate, first);
    gate.shut();
    let is_first_away = is_away(rt, alloc, gate, first);
    let is_second_away = is_away(rt, alloc, gate, second);
    [early, is_first_away, is_second_away]
}

/// Fails unless the first call alone was answered and kept.
fn expect_away(away: [bool; 3], record: &RunRecord) -> Result<(), Fail> {
    let [early, is_first_away, is_second_away] = away;
    expect(!early, "the gate was shut too early")?;
    expect(
        is_first_away && is_second_away,
        "a seat was not turned away",
    )?;
    expect(
        record.as_slice().len() == 1,
        "a call at a shut gate was kept",
    )
}

#[test]
fn a_shut_gate_turns_every_seat_away(rt: HostRuntime) -> Result<(), Fail> {
    let alloc = rt.alloc();
    let monitor = opened(alloc, 2)?;
    let (gate, mut spare) = Gate::new(alloc, monitor)?;
    let mut first = gate.split(&mut spare);
    let mut second = gate.split(&mut spare);
    let away = away_in_turn(&rt, alloc, &gate, &mut first, &mut second);
    gate.join(&mut spare, second);
    gate.join(&mut spare, first);
    let (record, _monitor) = gate.close(spare);
    expect_away(away, &record)
}
