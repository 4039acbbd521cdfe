//! The jobs of a history, which run again.

ghost use Rattle.std.specs.Prelude.{◌≡◌, ◌^◌, ◌<◌, ◌++◌, ◌∷◌, [], length, vec_len, OnOk};
ghost use Rattle.monitor_calls.specs.Typing.{Open};
ghost use Rattle.terminal_runner.specs.Runs.{AreUnused, leaves};
ghost use Rattle.history_replay.specs.Disputes.{each_does, entry_position};
ghost use Rattle.history_replay.specs.Lists.{AreLater, IsIndex, JobRan, JobsRan};

use crate::disputes::Dispute;
use crate::index::JobIndex;
use crate::list_seat::ListSeat;
use basic_values::{NoMemory, Trouble};
use monitor_calls::{Entry, Screen2};
use std::alloc::Global;
use terminal_runner::{JobBody, Keyboard, TerminalPort};

/// Runs each job over its entries. It fails with the first that departs from them.
pub(crate) fn run_all<B: JobBody + Drop, K: Keyboard + Drop>(
    alloc: Global,
    jobs: Vec<(B, K)>,
    history: &[Entry],
    index: &JobIndex,
) -> Result<Vec<Screen2>, Trouble<Dispute>>
    requires index { IsIndex 0 (vec_len jobs) history.now
        index.now.first.items index.now.later.items }
    requires few { vec_len jobs < 2 ^ 32 }
    requires unused { AreUnused K.keys jobs.items }
    ensures { JobsRan (each_does (leaves K.which K.keys B.does) jobs.items) (vec_len jobs)
        history.now result }
{
    let mut screens = Vec::new(alloc);
    for job in jobs {
        let number = screens.len();
        let first = index.first[number];
        let screen = run_one(
            alloc,
            job,
            number as u32,
            history,
            index.later.as_slice(),
            first,
        )?;
        keep(&mut screens, screen)?;
    }
    Ok(screens)
}

/// Runs the job of this number over its entries, of which the first is at this place.
fn run_one<B: JobBody, K: Keyboard + Drop>(
    alloc: Global,
    job: (B, K),
    number: u32,
    history: &[Entry],
    later: &[usize],
    first: usize,
) -> Result<Screen2, Trouble<Dispute>>
    requires first { first ≡ entry_position number 0 history.now }
    requires small { length history.now < 2 ^ 63 }
    requires later { AreLater 0 history.now later.now }
    requires unused { K.keys job.1 ≡ Open }
    ensures { JobRan (λ own. leaves K.which K.keys B.does job) number history.now result }
{
    let (body, keyboard) = job;
    let seat = ListSeat::new(alloc, history, later, number, first);
    let mut port = TerminalPort::new(seat, keyboard);
    let screen = body.run(alloc, &mut port)?;
    let (seat, _keyboard) = port.into_parts();
    match seat.departure() {
        None => Ok(screen),
        Some(dispute) => Err(Trouble::Refused(dispute)),
    }
}

fn keep(screens: &mut Vec<Screen2>, screen: Screen2) -> Result<(), NoMemory>
    ensures { OnOk result (screens.new.items ≡ screens.old.items ++ screen ∷ []) }
{
    screens.push(screen)?;
    Ok(())
}
