//! Jobs that run beside each other.

ghost use Rattle.std.specs.Prelude.{◌≡◌, ◌≤◌, [], ◌∷◌};
ghost use Rattle.monitor_calls.specs.Pairs.{requests, pairs_of};
ghost use Rattle.monitor_calls.specs.declared.calls.Request.TheVariants.{Login, Logout};

use crate::expects::expect;
use crate::jobs::ran;
use crate::volumes::{BLOCKS, DEMO, opened, password};
use basic_values::{NoMemory, Trouble};
use history_replay::{Dispute, after_history};
use monitor_calls::{Account, Entry, Port, Request, Screen2, Short};
use monitor_core::Monitor;
use monitor_gate::JobSeat;
use std::alloc::Global;
use std::sync::Wait;
use std::sync::atomic::{AtomicU64, Ordering};
use std::test::Fail;
use std::thread;
use std::thread::Threads;
use std::time::{Clock, Duration};
use terminal_runner::{BatchKeyboard, JobBody, Pacer, RunEnd, Telling, Tellings};

/// How many milliseconds a call waits for the first calls of the other jobs.
const MOST_NAPS: u32 = 20_000;

/// A job that logs in and out.
#[derive(Drop)]
struct InAndOut {
    account: Account,
    password: Short,
}

impl JobBody for InAndOut {
    ghost does = { λ body events screen.
        requests (pairs_of events) ≡ Login body.account body.password ∷ Logout ∷ [] };

    fn run<P: Port>(self, alloc: Global, port: &mut P) -> Result<Screen2, NoMemory> {
        port.ask(
            alloc,
            Request::Login {
                account: self.account,
                password: self.password,
            },
        )?;
        port.ask(alloc, Request::Logout)?;
        Ok(Screen2::from_vec(Vec::new(alloc)))
    }
}

fn bodies(alloc: Global, count: u32) -> Result<Vec<InAndOut>, Fail> {
    let mut bodies = Vec::new(alloc);
    for _ in 0..count {
        bodies.push(InAndOut {
            account: DEMO,
            password: password()?,
        })?;
    }
    Ok(bodies)
}

/// How often the pacer was called for a job.
#[derive(Drop)]
struct Calls {
    before: AtomicU64,
    after: AtomicU64,
}

/// It holds each job's second call until every job's first call was answered.
#[derive(Drop)]
struct Together<'a, R: Clock> {
    rt: &'a R,
    calls: Vec<Calls>,
    answered: AtomicU64,
    late: AtomicU64,
}

impl<'a, R: Clock> Together<'a, R> {
    fn new(rt: &'a R, alloc: Global, jobs: u32) -> Result<Together<'a, R>, Fail> {
        let mut calls = Vec::new(alloc);
        for _ in 0..jobs {
            calls.push(Calls {
                before: AtomicU64::new(0),
                after: AtomicU64::new(0),
            })?;
        }
        Ok(Together {
            rt,
            calls,
            answered: AtomicU64::new(0),
            late: AtomicU64::new(0),
        })
    }

    fn wait_for_all(&self) {
        for _ in 0..MOST_NAPS {
            let all = self.answered.load(Ordering::SeqCst) >= self.calls.len() as u64;
            if all || self.late.load(Ordering::SeqCst) > 0 {
                return;
            }
            thread::sleep(self.rt, Duration::from_millis(1));
        }
        self.late.store(1, Ordering::SeqCst);
    }
}

impl<'a, R: Clock> Pacer for Together<'a, R> {
    type Kept = Tellings;

    ghost tellings = { λ kept. kept };

    fn seat(&self) -> Tellings {
        Tellings::new()
    }

    fn before(&self, kept: &mut Tellings, seat: &JobSeat, call: u32) {
        kept.push(Telling::Before { call }, seat);
        if let Some(calls) = self.calls.get(seat.job() as usize) {
            calls.before.fetch_add(1, Ordering::SeqCst);
        }
        if call == 2 {
            self.wait_for_all();
        }
    }

    fn after(&self, kept: &mut Tellings, seat: &JobSeat, call: u32) {
        kept.push(Telling::After { call }, seat);
        if let Some(calls) = self.calls.get(seat.job() as usize) {
            calls.after.fetch_add(1, Ordering::SeqCst);
        }
        if call == 1 {
            self.answered.fetch_add(1, Ordering::SeqCst);
        }
    }
}

/// Returns how many entries of a run are a job's.
fn entries_of(end: &RunEnd<BatchKeyboard>, job: u32) -> u64 {
    let mut count = 0u64;
    for entry in end.run.as_slice() {
        if entry.job == job {
            count = count.saturating_add(1);
        }
    }
    count
}

/// Returns how often the pacer was called before and after the calls of a job.
fn calls_of<R: Clock>(pacer: &Together<'_, R>, job: u32) -> (u64, u64) {
    match pacer.calls.get(job as usize) {
        Some(calls) => (
            calls.before.load(Ordering::SeqCst),
            calls.after.load(Ordering::SeqCst),
        ),
        None => (0, 0),
    }
}

/// Fails unless each of this many jobs made two calls, at each of which the pacer held it, and no
/// job waited for the others in vain.
fn expect_held<R: Clock>(
    pacer: &Together<'_, R>,
    end: &RunEnd<BatchKeyboard>,
    jobs: u32,
) -> Result<(), Fail> {
    if pacer.late.load(Ordering::SeqCst) != 0 {
        return Err("a job waited for the others in vain")?;
    }
    if end.screens.len() != jobs as usize {
        return Err("another number of screens")?;
    }
    for job in 0..jobs {
        if entries_of(end, job) != 2 || calls_of(pacer, job) != (2, 2) {
            return Err("a job was not held at each of its calls")?;
        }
    }
    Ok(())
}

/// Runs this many jobs, of which none makes its second call before each has made its first.
fn run_together<R: Threads + Wait + Clock + Sync>(
    rt: &R,
    alloc: Global,
    jobs: u32,
) -> Result<(), Fail>
    requires { jobs ≤ 63 }
{
    let pacer = Together::new(rt, alloc, jobs)?;
    let monitor = opened(alloc, jobs)?;
    let end = ran(rt, alloc, monitor, bodies(alloc, jobs)?, &pacer)??;
    expect_held(&pacer, &end, jobs)?;
    expect_again(alloc, end.run.as_slice(), jobs)?;
    expect_left(end.monitor, jobs)
}

/// Fails unless a monitor was left that has this many jobs and the disk that was opened.
fn expect_left(monitor: Monitor, jobs: u32) -> Result<(), Fail> {
    expect(monitor.job_count() == jobs, "another number of jobs")?;
    let volume = monitor.into_volume()?;
    expect(
        volume.blocks == BLOCKS && volume.accounts.len() == 1 && volume.files.is_empty(),
        "another disk",
    )
}

/// Fails unless the entries are a history of a monitor with this many jobs, and of one with a job
/// less up to the first entry of the last job.
fn expect_again(alloc: Global, history: &[Entry], jobs: u32) -> Result<(), Fail>
    requires { jobs ≤ 63 }
{
    match after_history(alloc, opened(alloc, jobs)?, history) {
        Ok(monitor) => expect_left(monitor, jobs)?,
        Err(_) => return Err("the history is disputed")?,
    }
    let last = jobs.saturating_sub(1);
    let first = history.iter().position(|entry| entry.job == last);
    match (after_history(alloc, opened(alloc, last)?, history), first) {
        (Err(Trouble::Refused(Dispute::Reply { entry })), Some(place)) => {
            expect(entry == place, "another entry is disputed")
        }
        _ => Err("a job that is none is not disputed")?,
    }
}

#[test]
fn two_jobs_run_beside_each_other(rt: HostRuntime) -> Result<(), Fail> {
    run_together(&rt, rt.alloc(), 2)
}

#[test]
fn four_jobs_run_beside_each_other(rt: HostRuntime) -> Result<(), Fail> {
    run_together(&rt, rt.alloc(), 4)
}
