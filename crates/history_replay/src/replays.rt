//! A replay of entries over a monitor, bodies and keyboards.

ghost use Rattle.std.specs.Prelude.{◌≡◌, ◌<◌, ◌^◌, length, vec_len};
ghost use Rattle.terminal_runner.specs.Runs.{AreUnused, leaves};
ghost use Rattle.history_replay.specs.Disputes.{each_does, Replays};

use crate::answers::after_history;
use crate::disputes::Dispute;
use crate::index::index_of;
use crate::jobs::run_all;
use basic_values::Trouble;
use monitor_calls::{Entry, Screen2};
use monitor_core::Monitor;
use std::alloc::Global;
use terminal_runner::{JobBody, Keyboard};

/// Returns what each job's terminal was given, in the order of the jobs. The entries have to be a
/// history of a run over this newly opened monitor, in which each job does what its body does if
/// these keys are typed.
///
/// If an entry's reply is not the monitor's, it fails with `Reply` at the first such entry.
/// Otherwise, if a job does other things than its entries say, it fails with `Meaning` for the
/// least such job.
pub fn replay<B: JobBody + Drop, K: Keyboard + Drop>(
    alloc: Global,
    monitor: Monitor,
    jobs: Vec<(B, K)>,
    history: &[Entry],
) -> Result<Vec<Screen2>, Trouble<Dispute>>
    requires one_each { vec_len jobs ≡ length monitor.jobs }
    requires unused { AreUnused K.keys jobs.items }
    ensures { Replays (each_does (leaves K.which K.keys B.does) jobs.items) monitor (vec_len jobs)
        history.now result }
{
    let count = monitor.job_count();
    drop(after_history(alloc, monitor, history)?);
    let index = index_of(alloc, history, count)?;
    run_all(alloc, jobs, history, &index)
}
