//! Runs whose calls are held until calls of other jobs were answered, by a pacer for tests.

use crate::calls::{answered, expect_left, good};
use monitor_calls::RunRecord;
use monitor_gate::JobSeat;
use rsts_io::MemorySink;
use std::alloc::Global;
use std::sync::Wait;
use std::sync::atomic::{AtomicU64, Ordering};
use std::test::Fail;
use std::thread;
use std::thread::Threads;
use std::time::{Clock, Duration};
use terminal_runner::{Pacer, Telling, Tellings};
use time_sharing::Outcome;

/// How many milliseconds a call waits for a call of another job.
const MOST_NAPS: u32 = 20_000;

/// A job's call of that number is held until another job has this many calls answered.
#[derive(Clone, Copy)]
pub(crate) struct Hold {
    pub(crate) job: u32,
    pub(crate) call: u32,
    pub(crate) other: u32,
    pub(crate) answered: u64,
}

/// How often it was called for a job.
#[derive(Drop)]
struct Calls {
    before: AtomicU64,
    after: AtomicU64,
}

/// It holds the calls that it was made to hold.
#[derive(Drop)]
pub(crate) struct Ordered<'a, R: Clock> {
    rt: &'a R,
    holds: &'a [Hold],
    calls: Vec<Calls>,
    late: AtomicU64,
}

impl<'a, R: Clock> Ordered<'a, R> {
    fn new(rt: &'a R, alloc: Global, jobs: u32, holds: &'a [Hold]) -> Result<Ordered<'a, R>, Fail> {
        let mut calls = Vec::new(alloc);
        for _ in 0..jobs {
            calls.push(Calls {
                before: AtomicU64::new(0),
                after: AtomicU64::new(0),
            })?;
        }
        Ok(Ordered {
            rt,
            holds,
            calls,
            late: AtomicU64::new(0),
        })
    }

    /// Returns whether a call waited in vain.
    fn is_late(&self) -> bool {
        self.late.load(Ordering::SeqCst) > 0
    }

    /// Returns how often it was called before and after the calls of a job.
    fn calls_of(&self, job: u32) -> (u64, u64) {
        match self.calls.get(job as usize) {
            Some(calls) => (
                calls.before.load(Ordering::SeqCst),
                calls.after.load(Ordering::SeqCst),
            ),
            None => (0, 0),
        }
    }

    fn wait_for(&self, hold: &Hold) {
        for _ in 0..MOST_NAPS {
            if self.calls_of(hold.other).1 >= hold.answered || self.is_late() {
                return;
            }
            thread::sleep(self.rt, Duration::from_millis(1));
        }
        self.late.store(1, Ordering::SeqCst);
    }

    /// Counts a job's call of that number, and holds it.
    fn hold(&self, job: u32, call: u32) {
        if let Some(calls) = self.calls.get(job as usize) {
            calls.before.fetch_add(1, Ordering::SeqCst);
        }
        for hold in self.holds {
            if hold.job == job && hold.call == call {
                self.wait_for(hold);
            }
        }
    }
}

impl<'a, R: Clock> Pacer for Ordered<'a, R> {
    type Kept = Tellings;

    ghost tellings = { λ kept. kept };

    fn seat(&self) -> Tellings {
        Tellings::new()
    }

    fn before(&self, kept: &mut Tellings, seat: &JobSeat, call: u32) {
        kept.push(Telling::Before { call }, seat);
        self.hold(seat.job(), call);
    }

    fn after(&self, kept: &mut Tellings, seat: &JobSeat, call: u32) {
        kept.push(Telling::After { call }, seat);
        if let Some(calls) = self.calls.get(seat.job() as usize) {
            calls.after.fetch_add(1, Ordering::SeqCst);
        }
    }
}

/// Returns how many entries of a history are a job's.
fn entries_of(record: &RunRecord, job: u32) -> u64 {
    let mut count = 0u64;
    for entry in record.as_slice() {
        if entry.job == job {
            count = count.saturating_add(1);
        }
    }
    count
}

/// Returns whether the outcome has a history whose jobs the pacer held: it was called before and
/// after each call, and nobody waited in vain.
fn were_held<R: Clock>(pacer: &Ordered<'_, R>, outcome: &Outcome, jobs: u32) -> bool {
    let record = match outcome {
        Outcome::Run(Ok(record)) => record,
        Outcome::Drill(Ok(drill)) => &drill.history,
        _ => return false,
    };
    for job in 0..jobs {
        let entries = entries_of(record, job);
        if pacer.calls_of(job) != (entries, entries) {
            return false;
        }
    }
    !pacer.is_late()
}

/// Returns the outcome of the program for words and an input with its jobs' calls held so, and the
/// sink, which never fails. Fails if a job was not held at each of its calls.
pub(crate) fn run_ordered<R: Threads + Wait + Clock + Sync>(
    rt: &R,
    alloc: Global,
    asked: &[&str],
    input: &[u8],
    failing_takes: &[u64],
    jobs: u32,
    holds: &[Hold],
) -> Result<(Outcome, MemorySink), Fail> {
    let pacer = Ordered::new(rt, alloc, jobs, holds)?;
    let answer = answered(rt, alloc, asked, input, failing_takes, &[], &pacer)?;
    if !were_held(&pacer, &answer.0, jobs) {
        return Err("a job was not held")?;
    }
    Ok(answer)
}

/// Runs the program with its calls held so, and fails unless it writes this.
pub(crate) fn expect_ordered<R: Threads + Wait + Clock + Sync>(
    rt: &R,
    alloc: Global,
    asked: &[&str],
    deck: &[u8],
    jobs: u32,
    holds: &[Hold],
    want: &[u8],
) -> Result<(), Fail> {
    let (outcome, sink) = run_ordered(rt, alloc, asked, deck, &[], jobs, holds)?;
    expect_left(&outcome, sink.bytes(), good(want))
}

/// Makes the second call of each of this many jobs wait for the first call of each.
pub(crate) fn second_calls(alloc: Global, jobs: u32) -> Result<Vec<Hold>, Fail> {
    let mut holds = Vec::new(alloc);
    for job in 0..jobs {
        for other in 0..jobs {
            holds.push(Hold {
                job,
                call: 2,
                other,
                answered: 1,
            })?;
        }
    }
    Ok(holds)
}
