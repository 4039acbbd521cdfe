//! The monitor with the history of what it answered.

ghost use Rattle.std.specs.Prelude.{◌<◌, length, IfOk, OnErr};

use basic_values::NoMemory;
use monitor_calls::{Entry, Reply, Request, blank_page};
use monitor_core::Monitor;
use std::alloc::Global;

/// A monitor, and its answers since the gate was made over it.
#[derive(Drop)]
pub(crate) struct RecordedMonitor {
    pub(crate) monitor: Monitor,
    pub(crate) history: Vec<Entry>,
}

impl RecordedMonitor {
    ghost use Rattle.monitor_gate.specs.Recorded.{Answered, IsSame};

    /// Answers a call of a job, and adds its entry.
    pub(crate) fn answer(
        &mut self,
        alloc: Global,
        job: u32,
        request: Request,
    ) -> Result<Reply, NoMemory>
        requires { job < length self.old.monitor.jobs }
        ensures ok { IfOk result (λ r. Answered job request r self.old self.new) }
        ensures memory { OnErr result (IsSame self.old self.new) }
    {
        // All memory is taken before the monitor is asked: if it runs out, nothing was asked.
        let room = self.monitor.room_for_copy(alloc, job, &request)?;
        let page = blank_page(alloc, &request)?;
        self.history.reserve(1)?;
        let reply = self.monitor.answer(job, &request, page)?;
        self.history
            .push_reserved(Entry::new(job, request, reply.again(room)));
        Ok(reply)
    }
}
