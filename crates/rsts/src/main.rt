//! The program: time sharing after RSTS/E, with BASIC-PLUS jobs, between standard input and output.
//!
//! `begin` and `finish` of `time_sharing` do the work; the contract of its `rsts_main`, which is
//! both in turn, says what they do. The ends are those of `rsts_io`, and the pacer is the idle one
//! of `terminal_runner`.
#![tactic(auto)]

mod arguments;

use arguments::words_of;
use rsts_io::{StdSink, StdSource};
use std::process::ExitCode;
use std::rt::Env;
use std::sync::Wait;
use std::thread::Threads;
use std::{io, str};
use terminal_runner::IdlePacer;
use time_sharing::{Outcome, Step, begin, exit_code, finish};

/// Does what the words ask, says on standard error how it ended, and ends with its status.
fn main(rt: HostRuntime) -> ExitCode {
    let outcome = outcome_of(&rt);
    tell(&rt, &outcome);
    exit_code(&outcome)
}

/// Does what the words after the program's name ask, and returns how it ended.
fn outcome_of<R: Env + AllocGlobal + Input + Print + Threads + Wait + Sync>(rt: &R) -> Outcome {
    match words_of(rt) {
        Ok(words) => asked(rt, words.as_slice()),
        Err(error) if error.kind() == io::ErrorKind::OutOfMemory => Outcome::NoMemory,
        // A word that is not UTF-8 asks for nothing that the program does.
        Err(_) => Outcome::Usage,
    }
}

/// Does what these words ask between standard input and output, and returns how it ended. `begin`
/// does what needs no waiting, and only `finish` may wait.
fn asked<R: AllocGlobal + Input + Print + Threads + Wait + Sync>(
    rt: &R,
    words: &[String],
) -> Outcome {
    let mut source = StdSource::new(rt.reader());
    let mut sink = StdSink::new(io::writer(rt));
    match begin(rt.alloc(), words, &mut source, &mut sink) {
        Step::Ended(outcome) => outcome,
        Step::Waits(rest) => finish(rt, rt.alloc(), rest, &mut source, &mut sink, &IdlePacer),
    }
}

/// Writes the outcome's line, if it has one. If standard error fails, the status still says how it
/// ended.
fn tell(rt: &impl Eprint, outcome: &Outcome) {
    let line = outcome.line();
    if let Ok(text) = str::from_utf8(line.as_slice())
        && !text.is_empty()
    {
        let _ = rt.eprintln(text);
    }
}
