//! The places of each job's entries in a history.

ghost use Rattle.std.specs.Prelude.{IfOk};
ghost use Rattle.history_replay.specs.Lists.{AreOfJobs, IsIndex};

use basic_values::NoMemory;
use monitor_calls::Entry;
use std::alloc::Global;

/// The place of the first entry of each job, and for each entry the place of the next one of its
/// job. The number of entries means that there is none.
#[derive(Drop)]
pub(crate) struct JobIndex {
    pub(crate) first: Vec<usize>,
    pub(crate) later: Vec<usize>,
}

/// Returns the index of a history of this many jobs.
pub(crate) fn index_of(alloc: Global, history: &[Entry], jobs: u32) -> Result<JobIndex, NoMemory>
    requires { AreOfJobs jobs history.now }
    ensures { IfOk result (λ index.
        IsIndex 0 jobs history.now index.first.items index.later.items) }
{
    let mut first = vec![in alloc; history.len(); jobs as usize]?;
    let mut later = vec![in alloc; history.len(); history.len()]?;
    for place in (0..history.len()).rev() {
        let job = history[place].job as usize;
        later[place] = first[job];
        first[job] = place;
    }
    Ok(JobIndex { first, later })
}
