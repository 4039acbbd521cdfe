//! A run in which a job is out of memory: it is lost, and the other jobs are soon turned away.

ghost use Rattle.std.specs.Prelude.{List, IfOk};
ghost use Rattle.monitor_calls.specs.declared.events.Event.{Event};
ghost use Rattle.monitor_calls.specs.Pairs.{Grew};

use crate::expects::expect;
use crate::jobs::ran;
use crate::volumes::{DEMO, file_name, opened_with_file, password};
use basic_values::NoMemory;
use basic_values::limits::MOST_CALLS;
use monitor_calls::{FileName, OpenKind, Port, Request, Screen2, Short};
use monitor_gate::JobSeat;
use std::alloc::Global;
use std::sync::atomic::{AtomicU64, Ordering};
use std::test::Fail;
use std::thread;
use std::time::{Clock, Duration};
use terminal_runner::{JobBody, Pacer, Telling, Tellings};

/// Job 0 locks the block. Each other job asks for it in vain.
const JOBS: u32 = 3;

/// The call by which a job first asks for the block, after its login and its opening.
const FIRST_GET: u32 = 3;

/// How often a job naps, a millisecond each time, until it has waited in vain.
const MOST_NAPS: u32 = 20_000;

/// More calls than a job makes while a lost run ends, and far fewer than it would make.
const FEW_CALLS: u64 = 4_096;

/// More bytes than any machine has.
const TOO_MUCH: usize = 1 << 62;

/// A job that logs in, opens the file, asks this often for its block, and then needs this many
/// bytes.
#[derive(Drop)]
struct Clerk {
    password: Short,
    file: FileName,
    gets: u16,
    wanted: usize,
}

impl JobBody for Clerk {
    ghost does = { λ body events screen. Unit {0} };

    fn run<P: Port>(self, alloc: Global, port: &mut P) -> Result<Screen2, NoMemory> {
        enter(alloc, port, self.password, self.file)?;
        ask_for_block(alloc, port, self.gets)?;
        Ok(Screen2::from_vec(Vec::with_capacity(alloc, self.wanted)?))
    }
}

/// Logs in and opens the file.
fn enter<P: Port>(
    alloc: Global,
    port: &mut P,
    password: Short,
    name: FileName,
) -> Result<(), NoMemory>
    ensures { IfOk result (λ entered. (events : List Event)
        × Grew P.who P.log port.old port.new events) }
{
    port.ask(
        alloc,
        Request::Login {
            account: DEMO,
            password,
        },
    )?;
    port.ask(
        alloc,
        Request::OpenFile {
            channel: 1,
            name,
            kind: OpenKind::Input,
            update: true,
            code: None,
        },
    )?;
    Ok(())
}

/// Asks for the block as often as `gets` says.
fn ask_for_block<P: Port>(alloc: Global, port: &mut P, gets: u16) -> Result<(), NoMemory>
    ensures { IfOk result (λ asked. (events : List Event)
        × Grew P.who P.log port.old port.new events) }
{
    for _ in 0..gets {
        let request = Request::GetRecord {
            channel: 1,
            block: 1,
            count: 1,
        };
        port.ask(alloc, request)?;
    }
    Ok(())
}

/// Returns a job that asks twice for the block and is then out of memory, and jobs that ask for it
/// as often as an account may call.
fn clerks(alloc: Global) -> Result<Vec<Clerk>, Fail> {
    let mut clerks = Vec::new(alloc);
    for job in 0..JOBS {
        let (gets, wanted) = if job == 0 {
            (2, TOO_MUCH)
        } else {
            (MOST_CALLS, 0)
        };
        clerks.push(Clerk {
            password: password()?,
            file: file_name()?,
            gets,
            wanted,
        })?;
    }
    Ok(clerks)
}

/// It lets the others ask for the block when job 0 has it, and holds job 0 until each of them has
/// asked once. Before each later call they sleep.
#[derive(Drop)]
struct Polling<'a, R: Clock> {
    rt: &'a R,
    answered: Vec<AtomicU64>,
    late: AtomicU64,
}

impl<'a, R: Clock> Polling<'a, R> {
    fn new(rt: &'a R, alloc: Global) -> Result<Polling<'a, R>, Fail> {
        let mut answered = Vec::new(alloc);
        for _ in 0..JOBS {
            answered.push(AtomicU64::new(0))?;
        }
        Ok(Polling {
            rt,
            answered,
            late: AtomicU64::new(0),
        })
    }

    /// Returns how many calls of a job were answered.
    fn answered_of(&self, job: u32) -> u64 {
        match self.answered.get(job as usize) {
            Some(count) => count.load(Ordering::SeqCst),
            None => 0,
        }
    }

    fn nap(&self) {
        thread::sleep(self.rt, Duration::from_millis(1));
    }

    /// Waits until a job was answered the first time that it asked for the block.
    fn wait_for(&self, job: u32) {
        for _ in 0..MOST_NAPS {
            if self.answered_of(job) >= u64::from(FIRST_GET) {
                return;
            }
            self.nap();
        }
        self.late.store(1, Ordering::SeqCst);
    }

    fn hold(&self, job: u32, call: u32) {
        if job == 0 && call > FIRST_GET {
            for other in 1..JOBS {
                self.wait_for(other);
            }
        }
        if job > 0 && call == FIRST_GET {
            self.wait_for(0);
        }
        if job > 0 && call > FIRST_GET {
            self.nap();
        }
    }
}

impl<'a, R: Clock> Pacer for Polling<'a, R> {
    type Kept = Tellings;

    ghost tellings = { λ kept. kept };

    fn seat(&self) -> Tellings {
        Tellings::new()
    }

    fn before(&self, kept: &mut Tellings, seat: &JobSeat, call: u32) {
        kept.push(Telling::Before { call }, seat);
        self.hold(seat.job(), call);
    }

    fn after(&self, kept: &mut Tellings, seat: &JobSeat, call: u32) {
        kept.push(Telling::After { call }, seat);
        if let Some(count) = self.answered.get(seat.job() as usize) {
            count.fetch_add(1, Ordering::SeqCst);
        }
    }
}

/// Fails unless each job asked for the block, and the others were turned away soon.
fn expect_soon<R: Clock>(pacer: &Polling<'_, R>) -> Result<(), Fail> {
    expect(
        pacer.late.load(Ordering::SeqCst) == 0,
        "a job waited for the others in vain",
    )?;
    for job in 1..JOBS {
        let calls = pacer.answered_of(job);
        expect(calls >= u64::from(FIRST_GET), "a job was turned away early")?;
        expect(calls < FEW_CALLS, "a job went on in a lost run")?;
    }
    Ok(())
}

#[test]
fn a_job_out_of_memory_ends_the_run(rt: HostRuntime) -> Result<(), Fail> {
    let alloc = rt.alloc();
    let pacer = Polling::new(&rt, alloc)?;
    let monitor = opened_with_file(alloc, JOBS)?;
    let end = ran(&rt, alloc, monitor, clerks(alloc)?, &pacer)?;
    expect(end.is_err(), "the run went on without memory")?;
    expect_soon(&pacer)
}
