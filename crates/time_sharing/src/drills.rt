//! The drill: a run of a deck that is not read.

ghost use Rattle.std.specs.Prelude.{◌≡◌, ◌≤◌, IfOk};
ghost use Rattle.program_words.specs.declared.words.TheConstants.{MOST_DRILL_JOBS};
ghost use Rattle.time_sharing.specs.Headline.{IsDrill, line_of_drill, DrillEnds};

use crate::outcomes::{Drill, Failure};
use crate::runs::run_deck;
use basic_values::NoMemory;
use drill_deck::{drill_deck, drill_line, tally_of};
use drill_talk::laws;
use rsts_io::{Sink, SinkFault, give_all};
use std::alloc::Global;
use std::sync::Wait;
use std::thread::Threads;
use terminal_runner::Pacer;

/// Runs the drill with this many terminals and writes its line, as the word `drill` asks.
pub(crate) fn run_drill<R: Threads + Wait + Sync, K: Sink, P: Pacer + Sync>(
    rt: &R,
    alloc: Global,
    jobs: u32,
    sink: &mut K,
    pacer: &P,
) -> Result<Drill, Failure>
    requires { jobs ≤ MOST_DRILL_JOBS }
    ensures { DrillEnds jobs (K.state sink.old) (K.state sink.new) result }
{
    let (drill, line) = match drilled(rt, alloc, jobs, pacer) {
        Ok(drilled) => drilled,
        Err(NoMemory) => return Err(Failure::NoMemory),
    };
    match give_all(sink, line.as_slice()) {
        Ok(()) => Ok(drill),
        Err(SinkFault) => Err(Failure::WriteFault),
    }
}

/// Runs the drill, and returns its tally and the line that is written of it.
fn drilled<R: Threads + Wait + Sync, P: Pacer + Sync>(
    rt: &R,
    alloc: Global,
    jobs: u32,
    pacer: &P,
) -> Result<(Drill, Vec<u8>), NoMemory>
    requires { jobs ≤ MOST_DRILL_JOBS }
    ensures drill { IfOk result (λ told. IsDrill jobs told.0) }
    ensures line { IfOk result (λ told. told.1.items ≡ line_of_drill told.0) }
{
    let deck = drill_deck(alloc, jobs)?;
    let (_, ran) = run_deck(rt, alloc, deck, pacer)?;
    let tally = tally_of(ran.run.as_slice());
    let line = drill_line(alloc, jobs, tally)?;
    // so the two numbers are the same in 16 bits
    laws::no_put_is_lost();
    let drill = Drill {
        history: ran.run,
        jobs,
        puts: tally.puts,
        sum: tally.sum,
    };
    Ok((drill, line))
}
