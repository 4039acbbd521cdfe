//! A run: a gate, a thread for each job, and what they leave.

ghost use Rattle.std.specs.Prelude.{◌≡◌, ◌≤◌, ℕ, [], IfOk, length, vec_len};
ghost use Rattle.monitor_calls.specs.Typing.{Open};
ghost use Rattle.monitor_model.specs.History.{after};
ghost use Rattle.monitor_gate.specs.Passes.{spare_value, first_pass};
ghost use Rattle.terminal_runner.specs.Paced.{WasTold};
ghost use Rattle.terminal_runner.specs.Runs.{AreUnused, does_at, IsRun};
ghost use Rattle.terminal_runner.specs.Seats.{CameBack, pass_at, seated_from, seated_jobs, came_at};
ghost use Rattle.terminal_runner.specs.Seats.{AllAtGate, AllCameBack, Joined};

use crate::bodies::JobBody;
use crate::keyboards::Keyboard;
use crate::paced_seat::PacedSeat;
use crate::pacers::Pacer;
use crate::terminal_port::TerminalPort;
use basic_values::NoMemory;
use monitor_calls::{RunRecord, Screen2};
use monitor_core::Monitor;
use monitor_gate::{Gate, JobSeat, Spare};
use std::alloc::Global;
use std::sync::Wait;
use std::thread;
use std::thread::Threads;

/// What a run leaves: the screen and the keyboard of each job, in order; the monitor's calls; and
/// the monitor as it is after them.
#[derive(Drop)]
pub struct RunEnd<K> {
    pub screens: Vec<Screen2>,
    pub keyboards: Vec<K>,
    pub run: RunRecord,
    pub monitor: Monitor,
}

/// What a job leaves: its seat, its keyboard, and its screen.
type Left<K> = (JobSeat, (K, Screen2));

/// Runs each job of the monitor in a thread of its own, to its end. It takes the body and the
/// keyboard of each. A job whose thread can't be started runs in the caller's.
pub fn run_jobs<
    R: Threads + Wait + Sync,
    B: JobBody + Send + Drop,
    K: Keyboard + Send + Drop,
    P: Pacer + Sync,
>(
    rt: &R,
    alloc: Global,
    monitor: Monitor,
    jobs: Vec<(B, K)>,
    pacer: &P,
) -> Result<RunEnd<K>, NoMemory>
    requires one_each { vec_len jobs ≡ length monitor.jobs }
    requires unused { AreUnused K.keys jobs.items }
    ensures run { IfOk result (λ end.
        IsRun (does_at K.which K.keys B.does jobs.items end.keyboards.items)
        monitor (vec_len jobs) end.screens.items end.run) }
    ensures monitor { IfOk result (λ end. end.monitor ≡ after monitor end.run) }
{
    let (gate, mut spare) = Gate::new(alloc, monitor)?;
    let seated = split_all(alloc, &gate, &mut spare, jobs)?;
    let backs = run_all(rt, alloc, &gate, pacer, seated)?;
    let (keyboards, screens) = join_all(alloc, &gate, &mut spare, backs)?;
    let (run, monitor) = gate.close(spare);
    Ok(RunEnd {
        screens,
        keyboards,
        run,
        monitor,
    })
}

/// Returns the jobs, each with its seat at a new gate.
fn split_all<J: Drop>(
    alloc: Global,
    gate: &Gate,
    spare: &mut Spare,
    jobs: Vec<J>,
) -> Result<Vec<(JobSeat, J)>, NoMemory>
    requires own { spare.old ≡ spare_value gate.now.gate (first_pass gate.now.opening) }
    requires room { vec_len jobs ≤ length gate.now.opening.jobs }
    ensures seats { IfOk result (λ seated. seated.items ≡ seated_from gate.now 0 jobs.items) }
    ensures spare { IfOk result (λ seated.
        spare.new ≡ spare_value gate.now.gate (pass_at gate.now.opening (vec_len jobs))) }
{
    let mut seated = Vec::new(alloc);
    for job in jobs {
        seated.reserve(1)?;
        let seat = gate.split(spare);
        seated.push_reserved((seat, job));
    }
    Ok(seated)
}

/// Runs a job to its end. It also returns the notifications of its pacer.
fn run_paced<R: Wait, B: JobBody, K: Keyboard + Drop, P: Pacer>(
    rt: &R,
    alloc: Global,
    gate: &Gate,
    pacer: &P,
    seat: JobSeat,
    job: (B, K),
) -> Result<(Left<K>, P::Kept), NoMemory>
    requires own { seat.gate ≡ gate.now.gate }
    requires fresh { seat.pass.mine ≡ [] }
    requires unused { K.keys job.1 ≡ Open }
    ensures back { IfOk result (λ end. CameBack K.which K.keys (B.does job.0) job.1 seat end.0) }
    ensures told { IfOk result (λ end.
        (last : ℕ)
        × ∥ WasTold seat.pass.job (length end.0.0.pass.mine) last (P.tellings end.1) ∥₁) }
{
    let (body, keyboard) = job;
    let mut port = TerminalPort::new(PacedSeat::new(rt, gate, pacer, seat), keyboard);
    let screen = body.run(alloc, &mut port)?;
    let (paced, keyboard) = port.into_parts();
    let (seat, told) = paced.into_parts();
    Ok(((seat, (keyboard, screen)), told))
}

/// Runs a job to its end. If it is out of memory the run is lost, and no other job needs to go on.
fn run_one<R: Wait, B: JobBody, K: Keyboard + Drop, P: Pacer>(
    rt: &R,
    alloc: Global,
    gate: &Gate,
    pacer: &P,
    seat: JobSeat,
    job: (B, K),
) -> Result<Left<K>, NoMemory>
    requires own { seat.gate ≡ gate.now.gate }
    requires fresh { seat.pass.mine ≡ [] }
    requires unused { K.keys job.1 ≡ Open }
    ensures { IfOk result (λ back. CameBack K.which K.keys (B.does job.0) job.1 seat back) }
{
    match run_paced(rt, alloc, gate, pacer, seat, job) {
        Ok((back, _told)) => Ok(back),
        Err(NoMemory) => {
            gate.shut();
            Err(NoMemory)
        }
    }
}

/// Runs the jobs of these seats, each in a thread of its own.
fn run_all<
    R: Threads + Wait + Sync,
    B: JobBody + Send + Drop,
    K: Keyboard + Send + Drop,
    P: Pacer + Sync,
>(
    rt: &R,
    alloc: Global,
    gate: &Gate,
    pacer: &P,
    seated: Vec<(JobSeat, (B, K))>,
) -> Result<Vec<Result<Left<K>, NoMemory>>, NoMemory>
    requires seats { seated.items ≡ seated_from gate.now 0 (seated_jobs seated.items) }
    requires unused { AreUnused K.keys (seated_jobs seated.items) }
    ensures count { IfOk result (λ backs. vec_len backs ≡ vec_len seated) }
    ensures backs { IfOk result (λ backs.
        AllCameBack (came_at K.which K.keys B.does gate.now (seated_jobs seated.items))
        backs.items) }
{
    let backs = thread::map_vec(
        rt,
        seated,
        &|one: (JobSeat, (B, K))| -> Result<Left<K>, NoMemory>
            requires own { one.0.gate ≡ gate.now.gate }
            requires fresh { one.0.pass.mine ≡ [] }
            requires unused { K.keys one.1.1 ≡ Open }
            ensures { IfOk result (λ back.
                CameBack K.which K.keys (B.does one.1.0) one.1.1 one.0 back) }
        {
            let (seat, job) = one;
            run_one(rt, alloc, gate, pacer, seat, job)
        },
    )?;
    Ok(backs)
}

/// Joins the seats that came back, and returns the keyboards and the screens.
fn join_all<K: Drop>(
    alloc: Global,
    gate: &Gate,
    spare: &mut Spare,
    backs: Vec<Result<Left<K>, NoMemory>>,
) -> Result<(Vec<K>, Vec<Screen2>), NoMemory>
    requires own { spare.old.gate ≡ gate.now.gate }
    requires backs { AllAtGate gate.now.gate backs.items }
    ensures { IfOk result (λ ends.
        Joined backs.items spare.old spare.new ends.0.items ends.1.items) }
{
    let mut keyboards = Vec::new(alloc);
    let mut screens = Vec::new(alloc);
    for back in backs {
        keyboards.reserve(1)?;
        screens.reserve(1)?;
        let (seat, (keyboard, screen)) = back?;
        gate.join(spare, seat);
        keyboards.push_reserved(keyboard);
        screens.push_reserved(screen);
    }
    Ok((keyboards, screens))
}
