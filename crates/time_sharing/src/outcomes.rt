//! How a call of the program ends.

ghost use Rattle.std.specs.Prelude.{◌≡◌, ◌≤◌, length};
ghost use Rattle.time_sharing.specs.Statuses.{status_of, end_status, failure_status};
ghost use Rattle.time_sharing.specs.Statuses.{line_of, end_line, failure_line};
ghost use Rattle.time_sharing.specs.Statuses.{cause_text, fault_line, dispute_text, dispute_line};

use arrayvec::ArrayVec;
use deck_model::{DeckCause, DeckFault};
use itoa::Buffer;
use monitor_calls::RunRecord;

/// A drill that ended: its history, how many jobs it had, how many Puts were done, and the number
/// that the last of them wrote.
#[derive(Drop)]
pub struct Drill {
    pub history: RunRecord,
    pub jobs: u32,
    pub puts: u64,
    pub sum: u32,
}

/// Why the text after a deck is the history of no run of it.
#[derive(Clone, Copy, Debug, PartialEq, Eq)]
pub enum HistoryCause {
    /// It is the text of no history.
    Form,
    /// The job of an entry is no terminal, or its reply is not the monitor's.
    Reply,
    /// A terminal asks for something else than its entries say.
    Meaning,
}

/// The line at which the text after a deck first fails to be the history of a run of it, counted
/// over the whole input from 1, and why.
#[derive(Clone, Copy, Debug, PartialEq, Eq)]
pub struct HistoryFault {
    pub line: u32,
    pub cause: HistoryCause,
}

/// Why the program does not do what a word asks for.
#[derive(Clone, Copy, Debug, PartialEq, Eq)]
pub enum Failure {
    /// The input spells no deck: the first line that no deck can have there, and why.
    Deck(DeckFault),
    /// The source failed.
    ReadFault,
    /// The input has more than 8,388,608 bytes; of a replay, more than 268,435,456.
    TooLong,
    /// The sink failed, after a proper prefix of the output.
    WriteFault,
    NoMemory,
    /// The text after the deck is the history of no run of the deck.
    History(HistoryFault),
}

impl Failure {
    fn status(self) -> u8
        ensures { result ≡ failure_status self }
    {
        match self {
            Failure::Deck(_) => 2,
            Failure::ReadFault => 3,
            Failure::TooLong => 4,
            Failure::WriteFault => 5,
            Failure::NoMemory => 6,
            Failure::History(_) => 7,
        }
    }

    fn line(self) -> ArrayVec<u8, 80>
        ensures { result.items ≡ failure_line self }
    {
        match self {
            Failure::Deck(fault) => fault_line(fault),
            Failure::ReadFault => words(b"read fault"),
            Failure::TooLong => words(b"input too long"),
            Failure::WriteFault => words(b"write fault"),
            Failure::NoMemory => words(b"no memory"),
            Failure::History(fault) => dispute_line(fault),
        }
    }
}

/// How a call of the program ends. Each word has its own outcome: its result, or why it failed.
#[derive(Drop)]
pub enum Outcome {
    /// The deck was run and its report was written.
    Run(Result<RunRecord, Failure>),
    /// The deck is good, and a line that says so was written.
    Check(Result<(), Failure>),
    /// The drill was run, and its line was written.
    Drill(Result<Drill, Failure>),
    /// The run in the input was checked again, and its report was written.
    Replay(Result<RunRecord, Failure>),
    /// The words ask for nothing that the program does.
    Usage,
    /// Memory ran out before the words were parsed.
    NoMemory,
}

impl Outcome {
    /// Returns the status with which the program ends.
    pub fn status(&self) -> u8
        ensures { result ≡ status_of self.now }
    {
        match self {
            Outcome::Run(end) => end_status(end),
            Outcome::Check(end) => end_status(end),
            Outcome::Drill(end) => end_status(end),
            Outcome::Replay(end) => end_status(end),
            Outcome::Usage => 1,
            Outcome::NoMemory => Failure::NoMemory.status(),
        }
    }

    /// Returns what the program says on standard error, without its LF. It is empty if the status
    /// is 0.
    pub fn line(&self) -> ArrayVec<u8, 80>
        ensures { result.items ≡ line_of self.now }
    {
        match self {
            Outcome::Run(end) => end_line(end),
            Outcome::Check(end) => end_line(end),
            Outcome::Drill(end) => end_line(end),
            Outcome::Replay(end) => end_line(end),
            Outcome::Usage => {
                words(b"usage: rsts run [--history] [--printer] | check | drill N | replay")
            }
            Outcome::NoMemory => Failure::NoMemory.line(),
        }
    }
}

/// Returns the status for the result of a word.
fn end_status<A>(end: &Result<A, Failure>) -> u8
    ensures { result ≡ end_status end.now }
{
    match end {
        Ok(_) => 0,
        Err(failure) => failure.status(),
    }
}

/// Returns the line for the result of a word.
fn end_line<A>(end: &Result<A, Failure>) -> ArrayVec<u8, 80>
    ensures { result.items ≡ end_line end.now }
{
    match end {
        Ok(_) => words(b""),
        Err(failure) => failure.line(),
    }
}

fn words(text: &[u8]) -> ArrayVec<u8, 80>
    requires { length text.now ≤ 80 }
    ensures { result.items ≡ text.now }
{
    let mut line = ArrayVec::new();
    line.try_extend_from_slice(text).unwrap();
    line
}

/// Returns `deck line`, the line's number, and the cause.
fn fault_line(fault: DeckFault) -> ArrayVec<u8, 80>
    ensures { result.items ≡ fault_line fault }
{
    let mut buffer = Buffer::new();
    let mut line = words(b"deck line ");
    line.try_extend_from_slice(buffer.format(fault.line).as_bytes())
        .unwrap();
    line.try_extend_from_slice(b": ").unwrap();
    line.try_extend_from_slice(cause_text(fault.cause)).unwrap();
    line
}

/// Returns the words of a cause.
fn cause_text(cause: DeckCause) -> &'static [u8]
    ensures text { result.now ≡ cause_text cause }
    ensures short { length result.now ≤ 28 }
{
    match cause {
        DeckCause::Cut => b"input ends early",
        DeckCause::Version => b"not a version 1, 2 or 3 deck",
        DeckCause::Shape => b"wrong form",
        DeckCause::Range => b"number or text out of range",
        DeckCause::Double => b"name given twice",
        DeckCause::Owner => b"unknown account",
        DeckCause::Space => b"no room",
    }
}

/// Returns `history line`, the line's number, and the cause.
fn dispute_line(fault: HistoryFault) -> ArrayVec<u8, 80>
    ensures { result.items ≡ dispute_line fault }
{
    let mut buffer = Buffer::new();
    let mut line = words(b"history line ");
    line.try_extend_from_slice(buffer.format(fault.line).as_bytes())
        .unwrap();
    line.try_extend_from_slice(b": ").unwrap();
    line.try_extend_from_slice(dispute_text(fault.cause))
        .unwrap();
    line
}

/// Returns the words of a cause of a history.
fn dispute_text(cause: HistoryCause) -> &'static [u8]
    ensures text { result.now ≡ dispute_text cause }
    ensures short { length result.now ≤ 15 }
{
    match cause {
        HistoryCause::Form => b"wrong form",
        HistoryCause::Reply => b"reply differs",
        HistoryCause::Meaning => b"request differs",
    }
}
