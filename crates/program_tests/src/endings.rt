//! The state in which a program begins, and what is written when one ends.

use crate::expects::{expect, expect_none};
use crate::jobs::at_rest;
use basic_interpreter::{Exit, Running, Spot, clear, write_ending};
use basic_tree::Name;
use basic_values::{Fault, Halt, Int};
use program_model::Home;
use std::alloc::Global;
use std::test::Fail;

const HOME: Home = Home {
    start: 3,
    behind: 4,
    line: 10,
};

/// Puts a job at an instruction of line 10, and shows this on its screen.
fn set(state: &mut Running, shown: &[u8]) -> Result<(), Fail> {
    state.screen.write(shown)?;
    state.item = 5;
    state.line = 10;
    state.home = HOME;
    Ok(())
}

/// How a program ends, in few words.
#[derive(Clone, Copy)]
enum Why {
    Division,
    TooDeep,
    Gone,
    Ended,
    Stopped,
    StoppedInside,
}

fn exit(why: Why) -> Exit {
    match why {
        Why::Division => Exit::Fault(Fault::new(61)),
        Why::TooDeep => Exit::Halt(Halt::TooDeep),
        Why::Gone => Exit::Gone,
        Why::Ended => Exit::Ended,
        Why::Stopped => Exit::Stopped(Spot::new(3, HOME)),
        Why::StoppedInside => Exit::StoppedInside(HOME),
    }
}

/// What a screen shows before, the end and its line, and what the screen shows then.
type Ending = (&'static [u8], Why, u16, &'static [u8]);

static ENDINGS: [Ending; 8] = [
    (b"", Why::Division, 20, b"?Division by 0 at line 20\r\n"),
    (b"AB", Why::Division, 0, b"AB\r\n?Division by 0\r\n"),
    (
        b"A\r\n",
        Why::TooDeep,
        32767,
        b"A\r\n?Nested too deep at line 32767\r\n",
    ),
    (b"A", Why::Gone, 20, b"A\r\n?Job expired\r\n"),
    (b"A", Why::Ended, 20, b"A"),
    (b"A", Why::Stopped, 30, b"A\r\nStop at line 30\r\n"),
    (b"", Why::Stopped, 1, b"Stop at line 1\r\n"),
    (b"", Why::StoppedInside, 40, b"Stop at line 40\r\n"),
];

fn shows(state: &Running, wanted: &[u8]) -> bool {
    state.screen.bytes() == wanted
}

/// Returns whether the end of a job is reported in this way.
fn is_told(state: &mut Running, ending: &Ending) -> Result<bool, Fail> {
    set(state, ending.0)?;
    state.line = ending.2;
    write_ending(state, exit(ending.1))?;
    Ok(shows(state, ending.3))
}

fn is_told_at_rest(alloc: Global, ending: &Ending) -> Result<bool, Fail> {
    let mut state = at_rest(alloc)?;
    is_told(&mut state, ending)
}

fn first_wrong(alloc: Global) -> Result<Option<usize>, Fail> {
    for (place, ending) in ENDINGS.iter().enumerate() {
        if !is_told_at_rest(alloc, ending)? {
            return Ok(Some(place));
        }
    }
    Ok(None)
}

#[test]
fn endings_are_told_at_the_start_of_a_line(rt: HostRuntime) -> Result<(), Fail> {
    expect_none(rt.alloc(), first_wrong(rt.alloc())?)
}

const A: Name = Name {
    letter: b'A',
    digit: None,
    text: false,
};

/// Keeps a number, a handler and a place to return to in a job.
fn keep(state: &mut Running) -> Result<(), Fail> {
    set(state, b"A")?;
    if state.storage.set_number(A, Int::new(7)).is_err() {
        return Err(Fail::from("the number is refused"));
    }
    state.trap.handler = Some(100);
    state.returns.push(Spot::new(3, HOME))?;
    Ok(())
}

/// Returns whether nothing is kept but the screen, and limits that let a FOR take no turn.
fn is_cleared(state: &Running) -> bool {
    state.storage.number(A) == Int::new(0)
        && state.trap.handler == None
        && state.returns.len() == 0
        && state.item == 0
        && state.screen.bytes() == b"A".as_slice()
}

fn has_limits(state: &Running) -> bool {
    let limits = state.limits.as_slice();
    limits.len() == 2 && limits[1].0 == Int::new(0) && limits[1].1 == Int::new(1)
}

/// Fails unless a job in which that is kept is cleared.
fn expect_cleared(state: &mut Running) -> Result<(), Fail> {
    keep(state)?;
    clear(state, 2)?;
    expect(is_cleared(state) && has_limits(state), "what is kept")
}

#[test]
fn a_program_begins_with_nothing_kept(rt: HostRuntime) -> Result<(), Fail> {
    let mut state = at_rest(rt.alloc())?;
    expect_cleared(&mut state)
}
