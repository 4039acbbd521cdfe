//! Jobs at whose terminals nothing is typed.

ghost use Rattle.std.specs.Prelude.{IfOk};
ghost use Rattle.terminal_runner.specs.Keyboards.{taken_of};
ghost use Rattle.terminal_runner.specs.Runs.{AreUnused};

use basic_values::NoMemory;
use monitor_core::Monitor;
use std::alloc::Global;
use std::sync::Wait;
use std::test::Fail;
use std::thread::Threads;
use terminal_runner::{BatchKeyboard, JobBody, Pacer, RunEnd, run_jobs};

/// Returns each body with the keyboard of its terminal.
fn seated<B: Drop>(alloc: Global, bodies: Vec<B>) -> Result<Vec<(B, BatchKeyboard)>, NoMemory>
    ensures { IfOk result (λ jobs. AreUnused taken_of jobs.items) }
{
    let mut jobs = Vec::new(alloc);
    for body in bodies {
        jobs.push((body, BatchKeyboard::new(Vec::new(alloc))))?;
    }
    Ok(jobs)
}

/// Runs all jobs of a monitor, of each of which there is a body, and returns how the run ended.
pub(crate) fn ran<R: Threads + Wait + Sync, B: JobBody + Send + Drop, P: Pacer + Sync>(
    rt: &R,
    alloc: Global,
    monitor: Monitor,
    bodies: Vec<B>,
    pacer: &P,
) -> Result<Result<RunEnd<BatchKeyboard>, NoMemory>, Fail> {
    let jobs = seated(alloc, bodies)?;
    if jobs.len() != monitor.job_count() as usize {
        return Err("there is not a body for each job")?;
    }
    Ok(run_jobs(rt, alloc, monitor, jobs, pacer))
}
