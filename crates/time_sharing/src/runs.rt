//! A run of a deck: a job for each terminal, each in a thread of its own, over one monitor. The
//! terminal's keys are moved into the keyboard of its job.

ghost use Rattle.std.specs.Prelude.{◌≡◌, ◌++◌, ◌∷◌, [], length, map, IfOk, OnOk};
ghost use Rattle.deck_model.specs.Deck.{IsDeck};
ghost use Rattle.deck_reader.specs.Seen.{deck_of};
ghost use Rattle.report_texts.specs.Names.{names_of};
ghost use Rattle.session_model.specs.Talk.{IsTalkOf};
ghost use Rattle.terminal_runner.specs.Keyboards.{taken_of};
ghost use Rattle.terminal_runner.specs.Runs.{AreUnused};
ghost use Rattle.time_sharing.specs.InputEnds.{RetoldBy};
ghost use Rattle.time_sharing.specs.Runs.{IsRun, names_in};
ghost use Rattle.time_sharing.specs.Sessions.{job_lines, typed_keys};

use basic_values::{NoMemory, Trouble};
use command_level::serve;
use deck_reader::{Deck, Terminal};
use history_replay::{Dispute, replay};
use monitor_calls::{Entry, Port, Screen2};
use monitor_core::Monitor;
use std::alloc::Global;
use std::sync::Wait;
use std::thread::Threads;
use terminal_runner::{BatchKeyboard, JobBody, Pacer, RunEnd, run_jobs};

/// The session of a terminal.
#[derive(Drop)]
struct TerminalSession;

/// A session, and the keyboard of its terminal.
type Job = (TerminalSession, BatchKeyboard);

impl JobBody for TerminalSession {
    ghost does = { λ session events screen. IsTalkOf events screen };

    fn run<P: Port>(self, alloc: Global, port: &mut P) -> Result<Screen2, NoMemory> {
        let screen = serve(alloc, port)?;
        Ok(screen.close())
    }
}

/// Returns a job for each terminal, whose keyboard has the terminal's keys, and the terminals
/// without them.
fn parted(alloc: Global, terminals: Vec<Terminal>) -> Result<(Vec<Job>, Vec<Terminal>), NoMemory>
    ensures keys { IfOk result (λ parts.
        map job_lines parts.0.items ≡ map typed_keys terminals.items) }
    ensures unused { IfOk result (λ parts. AreUnused taken_of parts.0.items) }
    ensures names { IfOk result (λ parts. names_of parts.1.items ≡ names_of terminals.items) }
{
    let mut jobs = Vec::new(alloc);
    let mut named = Vec::new(alloc);
    for terminal in terminals {
        part(alloc, &mut jobs, &mut named, terminal)?;
    }
    Ok((jobs, named))
}

/// Adds the job of a terminal, and the terminal without its keys.
fn part(
    alloc: Global,
    jobs: &mut Vec<Job>,
    named: &mut Vec<Terminal>,
    terminal: Terminal,
) -> Result<(), NoMemory>
    ensures keys { OnOk result (map job_lines jobs.new.items
        ≡ map job_lines jobs.old.items ++ typed_keys terminal ∷ []) }
    ensures unused { OnOk result
        (AreUnused taken_of jobs.old.items → AreUnused taken_of jobs.new.items) }
    ensures names { OnOk result (names_of named.new.items
        ≡ names_of named.old.items ++ terminal.name ∷ []) }
{
    let Terminal { name, keys } = terminal;
    jobs.push((TerminalSession, BatchKeyboard::new(keys)))?;
    named.push(Terminal {
        name,
        keys: Vec::new(alloc),
    })?;
    Ok(())
}

/// Runs the terminals of a deck, each until its session has ended, and returns them without their
/// keys.
pub(crate) fn run_deck<R: Threads + Wait + Sync, P: Pacer + Sync>(
    rt: &R,
    alloc: Global,
    deck: Deck,
    pacer: &P,
) -> Result<(Vec<Terminal>, RunEnd<BatchKeyboard>), NoMemory>
    requires { IsDeck (deck_of deck) }
    ensures names { IfOk result (λ ran. names_of ran.0.items ≡ names_in (deck_of deck)) }
    ensures run { IfOk result (λ ran. IsRun (deck_of deck) ran.1.run ran.1.screens.items) }
{
    let Deck { volume, terminals } = deck;
    let count = terminals.len() as u32;
    let monitor = Monitor::open(alloc, &volume, count)?;
    let (jobs, named) = parted(alloc, terminals)?;
    let end = run_jobs(rt, alloc, monitor, jobs, pacer)?;
    Ok((named, end))
}

/// Replays entries over the terminals of a deck. It returns the screens if a run of the deck has
/// these entries, or else where they first fail to be that. It returns the terminals without their
/// keys.
pub(crate) fn replay_deck(
    alloc: Global,
    deck: Deck,
    history: &[Entry],
) -> Result<(Vec<Terminal>, Vec<Screen2>), Trouble<Dispute>>
    requires { IsDeck (deck_of deck) }
    ensures { RetoldBy (deck_of deck) history.now result }
{
    let Deck { volume, terminals } = deck;
    let count = terminals.len() as u32;
    let monitor = Monitor::open(alloc, &volume, count)?;
    let (jobs, named) = parted(alloc, terminals)?;
    let screens = replay(alloc, monitor, jobs, history)?;
    Ok((named, screens))
}
