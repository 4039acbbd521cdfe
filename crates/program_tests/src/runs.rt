//! What a run writes, its requests, and how it ends.

use crate::jobs::{at_rest, home};
use basic_interpreter::{Clock, Exit, Running, run};
use basic_tree::{Function, Name, Operator, Series};
use basic_values::{Halt, KeyLine, Text, Trouble};
use monitor_calls::{Reply, ScriptPort};
use polish_code::{Code, Item};
use std::alloc::Global;
use std::test::Fail;

fn name(letter: u8) -> Name {
    Name {
        letter,
        digit: None,
        text: false,
    }
}

/// Returns how a run ended.
fn ending(answer: Result<(), Trouble<Exit>>) -> &'static str {
    match answer {
        Ok(()) => "left a body",
        Err(Trouble::NoMemory) => "no memory",
        Err(Trouble::Refused(exit)) => word_of(exit),
    }
}

fn word_of(exit: Exit) -> &'static str {
    match exit {
        Exit::Fault(_) => "fault",
        Exit::Halt(Halt::TooDeep) => "too deep",
        Exit::Halt(_) => "halt",
        Exit::Gone => "gone",
        Exit::Ended => "ended",
        Exit::Chained => "chained",
        Exit::Stopped(_) => "stopped",
        Exit::StoppedInside(_) => "stopped inside",
    }
}

/// An instruction, in few words.
#[derive(Clone, Copy)]
enum Small {
    /// The first instruction of the statement, the one after it, and its line.
    Start(u32, u32, u16),
    /// The same, at the beginning of a body.
    Arrive(u32, u32, u16),
    Stop(u32, u32, u16),
    Number(u16),
    Plus,
    LoadX,
    /// A call of FNF% with the parameter X% or without, and its body's place.
    Call(bool, u32),
    PrintValue,
    EndLine,
    TestOutput,
    WriteOn,
    Discard,
    AskLine,
    /// The string of SYS that ends a receiver.
    Remove,
    Sys,
    End,
    Answer,
    Skip,
    Leave,
    Jump,
}

fn item(alloc: Global, small: Small) -> Result<Item, Fail> {
    match small {
        Small::Start(start, behind, line) => Ok(Item::Start(home(start, behind, line))),
        Small::Arrive(start, behind, line) => Ok(Item::Arrive(home(start, behind, line))),
        Small::Stop(start, behind, line) => Ok(Item::Stop(home(start, behind, line))),
        Small::Call(has_parameter, body) => call(alloc, has_parameter, body),
        Small::Remove => quoted(alloc, &[6, 22, 0]),
        _ => Ok(plain(small)),
    }
}

fn quoted(alloc: Global, bytes: &[u8]) -> Result<Item, Fail> {
    match Text::of(alloc, bytes) {
        Ok(text) => Ok(Item::Quoted(text)),
        Err(_) => Err(Fail::from("no text")),
    }
}

/// Returns an instruction without a place of its own.
fn plain(small: Small) -> Item {
    match small {
        Small::Number(number) => Item::Number(number),
        Small::Plus => Item::Operate(Operator::Plus),
        Small::LoadX => Item::Load(name(b'X')),
        Small::PrintValue => Item::PrintValue,
        Small::EndLine => Item::EndLine,
        Small::TestOutput => Item::TestOutput,
        Small::WriteOn => Item::WriteOn,
        Small::Discard => Item::Discard,
        Small::AskLine => Item::AskLine,
        Small::Sys => Item::Apply {
            function: Function::Sys,
            count: 1,
        },
        Small::Answer => Item::Answer,
        Small::Skip => Item::Skip(0),
        Small::Leave => Item::Leave,
        Small::Jump => Item::Jump(0),
        _ => Item::End,
    }
}

fn call(alloc: Global, has_parameter: bool, body: u32) -> Result<Item, Fail> {
    let mut parameters = Vec::new(alloc);
    if has_parameter {
        parameters.push(name(b'X'))?;
    }
    let count = parameters.len() as u32;
    Ok(Item::Call {
        function: name(b'F'),
        parameters: Series::from_vec(parameters),
        count,
        body: Some(body),
    })
}

fn push_item(alloc: Global, items: &mut Vec<Item>, small: Small) -> Result<(), Fail> {
    let item = item(alloc, small)?;
    Ok(items.push(item)?)
}

fn code_of(alloc: Global, row: &[Small]) -> Result<Code, Fail> {
    let mut items = Vec::new(alloc);
    for small in row {
        push_item(alloc, &mut items, *small)?;
    }
    Ok(Code::new(items, Vec::new(alloc), Vec::new(alloc)))
}

/// Returns a port with this many replies that let a job continue.
fn port_of(alloc: Global, count: usize) -> Result<ScriptPort, Fail> {
    let mut replies = Vec::new(alloc);
    for _ in 0..count {
        replies.push(Reply::Done)?;
    }
    Ok(ScriptPort::new(alloc, replies))
}

/// Instructions, how many replies there are, how the run ends, what it writes, how many requests it
/// makes, and in which line it is then.
type Row = (
    &'static [Small],
    usize,
    &'static str,
    &'static [u8],
    usize,
    u16,
);

/// Runs code from its first instruction on, and returns how that ended.
fn ran(code: &Code, state: &mut Running, port: &mut ScriptPort) -> &'static str {
    let mut clock = Clock::new();
    ending(run(code, 0, state, &mut clock, port))
}

/// Returns whether a job is left in this way, outside every body, and has made this many requests.
fn is_left(state: &Running, port: &ScriptPort, row: &Row) -> bool {
    state.screen.bytes() == row.3
        && port.log().len() == row.4
        && state.line == row.5
        && state.frames.len() == 0
}

/// Fails with how a run over this port ended, unless it is as the row says.
fn expect_over(alloc: Global, port: &mut ScriptPort, code: &Code, row: &Row) -> Result<(), Fail> {
    let mut state = at_rest(alloc)?;
    let ended = ran(code, &mut state, port);
    if ended == row.2 && is_left(&state, port, row) {
        Ok(())
    } else {
        Err(Fail::from(ended))
    }
}

/// Does the same with a port and code of its own.
fn expect(alloc: Global, row: &Row) -> Result<(), Fail> {
    let mut port = port_of(alloc, row.1)?;
    let code = code_of(alloc, row.0)?;
    expect_over(alloc, &mut port, &code, row)
}

static SUM: Row = (
    &[
        Small::Start(0, 6, 10),
        Small::Number(2),
        Small::Number(3),
        Small::Plus,
        Small::PrintValue,
        Small::EndLine,
    ],
    0,
    "ended",
    b" 5 \r\n",
    0,
    10,
);

#[test]
fn a_sum_is_printed(rt: HostRuntime) -> Result<(), Fail> {
    expect(rt.alloc(), &SUM)
}

/// A function of one line gives the value of its parameter and one.
static CALLED: Row = (
    &[
        Small::Start(0, 5, 10),
        Small::Number(4),
        Small::Call(true, 6),
        Small::PrintValue,
        Small::EndLine,
        Small::End,
        Small::Arrive(6, 11, 20),
        Small::LoadX,
        Small::Number(1),
        Small::Plus,
        Small::Answer,
        Small::Skip,
        Small::Leave,
    ],
    0,
    "ended",
    b" 5 \r\n",
    0,
    10,
);

#[test]
fn a_function_is_called(rt: HostRuntime) -> Result<(), Fail> {
    expect(rt.alloc(), &CALLED)
}

static STOPPED_INSIDE: Row = (
    &[
        Small::Start(0, 5, 10),
        Small::Number(4),
        Small::Call(true, 6),
        Small::PrintValue,
        Small::EndLine,
        Small::End,
        Small::Arrive(6, 11, 20),
        Small::LoadX,
        Small::Number(1),
        Small::Plus,
        Small::Answer,
        Small::Stop(6, 11, 20),
        Small::Leave,
    ],
    0,
    "stopped inside",
    b"",
    0,
    20,
);

#[test]
fn it_stops_in_a_body(rt: HostRuntime) -> Result<(), Fail> {
    expect(rt.alloc(), &STOPPED_INSIDE)
}

static STOPPED: Row = (
    &[Small::Start(0, 2, 10), Small::Stop(0, 2, 10)],
    0,
    "stopped",
    b"",
    0,
    10,
);

#[test]
fn it_stops(rt: HostRuntime) -> Result<(), Fail> {
    expect(rt.alloc(), &STOPPED)
}

static TOO_DEEP: Row = (
    &[Small::Start(0, 2, 10), Small::Call(false, 1), Small::Leave],
    0,
    "too deep",
    b"",
    0,
    10,
);

#[test]
fn calls_end_too_deep(rt: HostRuntime) -> Result<(), Fail> {
    expect(rt.alloc(), &TOO_DEEP)
}

/// A job whose third Tick is not answered.
static TICKS: Row = (
    &[Small::Start(0, 2, 10), Small::Jump],
    2,
    "gone",
    b"",
    3,
    10,
);

#[test]
fn ticks_end_a_run(rt: HostRuntime) -> Result<(), Fail> {
    expect(rt.alloc(), &TICKS)
}

/// PRINT #0%, 7%; writes to the terminal.
static ON_THE_TERMINAL: Row = (
    &[
        Small::Start(0, 6, 10),
        Small::Number(0),
        Small::TestOutput,
        Small::Number(7),
        Small::WriteOn,
        Small::Discard,
    ],
    0,
    "ended",
    b" 7 ",
    0,
    10,
);

/// PRINT #1% on a channel that is not open makes no request.
static NOT_OPEN: Row = (
    &[
        Small::Start(0, 5, 10),
        Small::Number(1),
        Small::TestOutput,
        Small::Number(7),
        Small::WriteOn,
    ],
    0,
    "fault",
    b"",
    0,
    10,
);

/// SYS returns no byte for a request that was done.
static SYS_DONE: Row = (
    &[
        Small::Start(0, 5, 10),
        Small::Remove,
        Small::Sys,
        Small::PrintValue,
        Small::EndLine,
    ],
    1,
    "ended",
    b"\r\n",
    1,
    10,
);

#[test]
fn items_ask(rt: HostRuntime) -> Result<(), Fail> {
    expect(rt.alloc(), &ON_THE_TERMINAL)?;
    expect(rt.alloc(), &NOT_OPEN)?;
    expect(rt.alloc(), &SYS_DONE)
}

/// INPUT LINE of a key line, which is printed.
static TYPED: Row = (
    &[Small::Start(0, 3, 10), Small::AskLine, Small::PrintValue],
    0,
    "ended",
    b"? ABC\r\nABC\r\n",
    1,
    10,
);

/// The same at the end of the keys.
static NOT_TYPED: Row = (
    &[Small::Start(0, 3, 10), Small::AskLine, Small::PrintValue],
    0,
    "fault",
    b"? ",
    1,
    10,
);

#[test]
fn a_line_is_typed(rt: HostRuntime) -> Result<(), Fail> {
    let alloc = rt.alloc();
    let mut keys = Vec::new(alloc);
    keys.push(KeyLine::of(alloc, b"ABC")?)?;
    let mut port = ScriptPort::typed(alloc, keys, Vec::new(alloc));
    let code = code_of(alloc, TYPED.0)?;
    expect_over(alloc, &mut port, &code, &TYPED)?;
    expect(alloc, &NOT_TYPED)
}
