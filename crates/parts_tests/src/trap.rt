//! An error, its handler, and the way back.

use crate::expects::expect_none;
use basic_values::Fault;
use error_trap::{Raised, Trap};
use std::test::Fail;

/// What happens to a trap.
#[derive(Clone, Copy)]
enum Step {
    Resume,
    /// An error with its line and its place.
    Raise(u8, u16, u32),
    OnError(Option<u16>),
    /// The number and the line of the last error.
    Last,
}

/// The answer to a step.
#[derive(Clone, Copy, PartialEq, Eq)]
enum Told {
    /// There is no error to resume from.
    NoError,
    Back(u32),
    Report,
    Handle(u16),
    /// The handler gets no more errors.
    Nothing,
    /// The error that was handled, and its line.
    Left(u8, u16),
    Error(u8, u16),
}

fn told_behind(trap: &mut Trap, step: Step) -> Told {
    match step {
        Step::Resume => resumed(trap),
        Step::Raise(number, line, place) => raised(trap, number, line, place),
        Step::OnError(line) => turned(trap, line),
        Step::Last => Told::Error(trap.number, trap.line),
    }
}

fn resumed(trap: &mut Trap) -> Told {
    match trap.resume() {
        Ok(place) => Told::Back(place),
        Err(_) => Told::NoError,
    }
}

fn raised(trap: &mut Trap, number: u8, line: u16, place: u32) -> Told {
    match trap.raise(Fault::new(number), line, place) {
        Raised::Report => Told::Report,
        Raised::Handle(line) => Told::Handle(line),
    }
}

fn turned(trap: &mut Trap, line: Option<u16>) -> Told {
    match trap.on_error(line) {
        Some((fault, line)) => Told::Left(fault.number(), line),
        None => Told::Nothing,
    }
}

fn first_wrong(rows: &[(Step, Told)]) -> Option<usize> {
    let mut trap = Trap::new();
    for (place, (step, want)) in rows.iter().enumerate() {
        if told_behind(&mut trap, *step) != *want {
            return Some(place);
        }
    }
    None
}

static HANDLED: [(Step, Told); 9] = [
    (Step::Resume, Told::NoError),
    (Step::Raise(61, 20, 7), Told::Report),
    (Step::OnError(Some(100)), Told::Nothing),
    (Step::Raise(61, 20, 7), Told::Handle(100)),
    (Step::Raise(55, 110, 9), Told::Report),
    (Step::Last, Told::Error(61, 20)),
    (Step::Resume, Told::Back(7)),
    (Step::OnError(None), Told::Nothing),
    (Step::Last, Told::Error(61, 20)),
];

#[test]
fn an_error_goes_to_its_handler_and_back(rt: HostRuntime) -> Result<(), Fail> {
    expect_none(rt.alloc(), first_wrong(&HANDLED))
}

static LEFT: [(Step, Told); 3] = [
    (Step::OnError(Some(100)), Told::Nothing),
    (Step::Raise(11, 30, 4), Told::Handle(100)),
    (Step::OnError(None), Told::Left(11, 30)),
];

#[test]
fn a_handler_taken_away_leaves_its_error(rt: HostRuntime) -> Result<(), Fail> {
    expect_none(rt.alloc(), first_wrong(&LEFT))
}
