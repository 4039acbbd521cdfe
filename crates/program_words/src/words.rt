//! The action that the program's words ask for.

ghost use Rattle.std.specs.Prelude.{◌≡◌, IfOk, map, string_bytes};
ghost use Rattle.basic_values.specs.Decimals.{number_between};
ghost use Rattle.program_words.specs.Words.{asked, asked_plainly, drill_by, is_nothing, IsFew};
ghost use Rattle.program_words.specs.CommandLine.{said_seen};

use crate::command::{Said, said_by};
use basic_values::{NoMemory, number_between};
use std::alloc::Global;

/// The most terminals of a drill.
pub const MOST_DRILL_JOBS: u32 = 16;

/// What a run writes after its report.
#[derive(Clone, Copy, Debug, PartialEq, Eq)]
pub struct Wanted {
    /// The text of its history.
    pub history: bool,
    /// What the printer printed.
    pub printer: bool,
}

impl Wanted {
    /// Returns whether none of it is asked for.
    fn is_nothing(self) -> bool
        ensures { result ≡ is_nothing self }
    {
        !self.history && !self.printer
    }
}

/// What the words ask for.
#[derive(Clone, Copy, Debug, PartialEq, Eq)]
pub enum Asked {
    /// A run, and what its flags ask for.
    Run(Wanted),
    Check,
    /// A drill with this many terminals, from 1 to `MOST_DRILL_JOBS`.
    Drill(u32),
    /// A check that a run of a deck has a given history.
    Replay,
    Nothing,
}

/// Returns what the words ask for, as one flat command takes them.
pub fn asked_by(alloc: Global, words: &[String]) -> Result<Asked, NoMemory>
    ensures asked { IfOk result (λ told. told ≡ asked (map string_bytes words.now)) }
    ensures few { IfOk result (λ told. IsFew told) }
{
    match said_by(alloc, words)? {
        Some(said) => Ok(asked_of(said)),
        None => Ok(Asked::Nothing),
    }
}

/// Returns what an action asks for, with its count and its flags.
fn asked_of(said: Said<'_>) -> Asked
    ensures asked { result ≡ asked_plainly (said_seen said.entry) }
    ensures few { IsFew result }
{
    match said.count {
        None if said.action == "run" => Asked::Run(said.wanted),
        None if said.action == "check" && said.wanted.is_nothing() => Asked::Check,
        None if said.action == "replay" && said.wanted.is_nothing() => Asked::Replay,
        Some(count) if said.action == "drill" && said.wanted.is_nothing() => {
            drill_of(count.as_bytes())
        }
        _ => Asked::Nothing,
    }
}

/// Returns a drill with as many terminals as the digits say.
fn drill_of(count: &[u8]) -> Asked
    ensures asked { result ≡ drill_by (number_between 1 MOST_DRILL_JOBS count.now) }
    ensures few { IsFew result }
{
    match number_between(1, MOST_DRILL_JOBS, count) {
        Some(jobs) => Asked::Drill(jobs),
        None => Asked::Nothing,
    }
}
