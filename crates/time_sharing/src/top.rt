//! The top call: what the program does with its words and its two ends.

ghost use Rattle.std.specs.Prelude.{◌≡◌, map, string_bytes};
ghost use Rattle.std.specs.Process.{exit_status};
ghost use Rattle.program_words.specs.Words.{asked};
ghost use Rattle.time_sharing.specs.Headline.{Does};
ghost use Rattle.time_sharing.specs.Statuses.{status_of};
ghost use Rattle.time_sharing.specs.Steps.{Begins, IsRest, asked_by_rest};
ghost use Rattle.time_sharing.specs.TwoEnds.{ends};

use crate::drills::run_drill;
use crate::outcomes::Outcome;
use crate::replays::replay_system;
use crate::systems::{check_system, run_system};
use basic_values::NoMemory;
use program_words::{Asked, Wanted, asked_by};
use rsts_io::{Sink, Source};
use std::alloc::Global;
use std::process::ExitCode;
use std::sync::Wait;
use std::thread::Threads;
use terminal_runner::Pacer;

/// What is left to do once the words are parsed and nothing was read yet: it may wait.
#[derive(Clone, Copy, Debug, PartialEq, Eq)]
pub enum Rest {
    /// A deck is to be run, and its report written with what else is asked for.
    Run(Wanted),
    /// A drill is to be run, with this many terminals.
    Drill(u32),
}

/// How far the program gets without waiting.
#[derive(Drop)]
pub enum Step {
    /// It is done.
    Ended(Outcome),
    /// `finish` does the rest.
    Waits(Rest),
}

/// Does what the words ask if that needs no waiting, as a check, a replay and the usage do. Parses
/// the words, and says what is left to do.
pub fn begin<S: Source, K: Sink>(
    alloc: Global,
    words: &[String],
    source: &mut S,
    sink: &mut K,
) -> Step
    ensures { Begins (asked (map string_bytes words.now))
        (ends (S.state source.old) (K.state sink.old))
        (ends (S.state source.new) (K.state sink.new)) result }
{
    match asked_by(alloc, words) {
        Ok(Asked::Run(wanted)) => Step::Waits(Rest::Run(wanted)),
        Ok(Asked::Check) => Step::Ended(Outcome::Check(check_system(alloc, source, sink))),
        Ok(Asked::Drill(jobs)) => Step::Waits(Rest::Drill(jobs)),
        Ok(Asked::Replay) => Step::Ended(Outcome::Replay(replay_system(alloc, source, sink))),
        Ok(Asked::Nothing) => Step::Ended(Outcome::Usage),
        Err(NoMemory) => Step::Ended(Outcome::NoMemory),
    }
}

/// Does the rest. For a run, it reads a deck from the source, runs its terminals, each in a thread
/// of its own, and writes what is asked of the run. For a drill, it runs the drill's deck and
/// writes its line.
pub fn finish<R: Threads + Wait + Sync, S: Source, K: Sink, P: Pacer + Sync>(
    rt: &R,
    alloc: Global,
    rest: Rest,
    source: &mut S,
    sink: &mut K,
    pacer: &P,
) -> Outcome
    requires { IsRest rest }
    ensures { Does (asked_by_rest rest)
        (ends (S.state source.old) (K.state sink.old))
        (ends (S.state source.new) (K.state sink.new)) result }
{
    match rest {
        Rest::Run(wanted) => Outcome::Run(run_system(rt, alloc, wanted, source, sink, pacer)),
        Rest::Drill(jobs) => Outcome::Drill(run_drill(rt, alloc, jobs, sink, pacer)),
    }
}

/// Does what the words ask. For a run, it reads a deck from the source, runs its terminals, each in
/// a thread of its own, and writes the report to the sink. After it come the text of the history
/// and what the printer printed, if asked for. For a check, it reads a deck and writes whether it
/// is good. For a drill, it runs the drill's deck and writes its line. For a replay, it reads a
/// deck and a history and checks that run again.
pub fn rsts_main<R: Threads + Wait + Sync, S: Source, K: Sink, P: Pacer + Sync>(
    rt: &R,
    alloc: Global,
    words: &[String],
    source: &mut S,
    sink: &mut K,
    pacer: &P,
) -> Outcome
    ensures { Does (asked (map string_bytes words.now))
        (ends (S.state source.old) (K.state sink.old))
        (ends (S.state source.new) (K.state sink.new)) result }
{
    match begin(alloc, words, source, sink) {
        Step::Ended(outcome) => outcome,
        Step::Waits(rest) => finish(rt, alloc, rest, source, sink, pacer),
    }
}

/// Returns the status with which the program ends after this outcome.
pub fn exit_code(outcome: &Outcome) -> ExitCode
    ensures { exit_status result ≡ status_of outcome.now }
{
    ExitCode::from(outcome.status())
}
