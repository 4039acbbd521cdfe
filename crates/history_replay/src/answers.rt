//! The replies of a history, compared with those of a monitor that is asked again.

ghost use Rattle.std.specs.Prelude.{◌≡◌, ◌↔◌, IsTrue, IfOk};
ghost use Rattle.monitor_model.specs.Answer.{next};
ghost use Rattle.monitor_model.specs.History.{IsAnswered};
ghost use Rattle.history_replay.specs.Disputes.{IsAfter};

use crate::disputes::Dispute;
use crate::replies::same_reply;
use basic_values::{NoMemory, Trouble};
use monitor_calls::{Entry, blank_page};
use monitor_core::Monitor;
use std::alloc::Global;

/// Returns the monitor as it is after the entries, if they are a history of this newly opened
/// monitor. It asks the monitor the request of each entry, one after another, and runs no job.
///
/// If an entry's job does not exist, or its reply is not the monitor's, it fails with `Reply` at
/// the first such entry. It fails for no other cause, except that memory may run out.
pub fn after_history(
    alloc: Global,
    mut monitor: Monitor,
    history: &[Entry],
) -> Result<Monitor, Trouble<Dispute>>
    ensures { IsAfter monitor history.now result }
{
    for (place, entry) in history.iter().enumerate() {
        if !is_answered(alloc, &mut monitor, entry)? {
            return Err(Trouble::Refused(Dispute::Reply { entry: place }));
        }
    }
    Ok(monitor)
}

/// Returns whether the entry's job is one of the monitor's, and its reply the monitor's.
fn is_answered(alloc: Global, monitor: &mut Monitor, entry: &Entry) -> Result<bool, NoMemory>
    ensures answer { IfOk result (λ is. IsTrue is ↔ IsAnswered monitor.old entry.now) }
    ensures state { IfOk result (λ is. IsTrue is
        → monitor.new ≡ next monitor.old entry.now.job entry.now.request) }
{
    if entry.job >= monitor.job_count() {
        return Ok(false);
    }
    let page = blank_page(alloc, &entry.request)?;
    let reply = monitor.answer(entry.job, &entry.request, page)?;
    Ok(same_reply(&reply, &entry.reply))
}
