//! A line that INPUT # takes from the bytes of a channel.

ghost use Rattle.std.specs.Prelude.{◌≡◌, ◌≤◌, ◌++◌, [], length, take, nat_lt, IfOk, OnOk};
ghost use Rattle.std.specs.List.{prefix_len};
ghost use Rattle.channels.specs.declared.lines.TheConstants.{MOST_LINE};
ghost use Rattle.channels.specs.TextIn.{takes_from, without_last_return, is_kept, line_room};
ghost use Rattle.channels.specs.TextIn.{bytes_left};

use basic_values::limits::MOST_BLOCKS;
use basic_values::{NoMemory, Text};
use std::alloc::Global;
use std::marker::Model;

/// The most bytes that a line takes from its file, with its line feed. Zeros do not count.
pub(crate) const MOST_TAKEN: usize = 32767;

/// The most bytes of a line without its end.
pub(crate) const MOST_LINE: usize = 32765;

/// More records than a disk has blocks.
pub(crate) const MOST_TURNS: u16 = MOST_BLOCKS + 1;

/// The byte that ends a line.
pub(crate) const LINE_FEED: u8 = 10;

/// The byte that is dropped before a line feed.
pub(crate) const RETURN: u8 = 13;

/// The bytes that a line has so far.
#[derive(Drop)]
pub(crate) struct Line {
    bytes: Vec<u8>,
}

impl Model for Line {
    ghost use Rattle.std.specs.Prelude.{List, ℕ};

    ghost Value = { List ℕ };

    ghost view = { λ line. line.bytes.items };
}

/// The result of taking some bytes into a line.
#[derive(Drop)]
pub(crate) enum Taken {
    /// All of them, and the line continues after them.
    AllTaken(Line),
    /// Those up to its line feed. This many are left.
    LineTaken { line: Line, left: usize },
    /// More than a line can have, without a line feed. This many are left.
    TooMany { left: usize },
}

/// What a record leads to.
#[derive(Drop)]
pub(crate) enum Turn {
    /// The line continues with the next record.
    GoesOn(Line),
    IsWhole(Line),
}

impl Line {
    pub(crate) fn new(alloc: Global) -> Line
        ensures { result ≡ [] }
    {
        Line {
            bytes: Vec::new(alloc),
        }
    }

    /// Returns how many more bytes it can have.
    fn room(&self) -> usize
        ensures { result ≡ line_room self.now }
    {
        (MOST_TAKEN - 1).saturating_sub(self.bytes.len())
    }

    fn push(&mut self, run: &[u8]) -> Result<(), NoMemory>
        ensures { OnOk result (self.new ≡ self.old ++ run.now) }
    {
        self.bytes.extend_from_slice(run)?;
        Ok(())
    }

    /// Returns whether it has bytes.
    pub(crate) fn is_begun(&self) -> bool
        ensures { result ≡ nat_lt 0 (length self.now) }
    {
        0 < self.bytes.len()
    }

    /// Returns whether it has more bytes than a line can have.
    pub(crate) fn is_too_long(&self) -> bool
        ensures { result ≡ nat_lt MOST_LINE (length self.now) }
    {
        MOST_LINE < self.bytes.len()
    }

    /// Returns the line without the CR at its end.
    pub(crate) fn without_last_return(self) -> Line
        ensures { result ≡ without_last_return self }
    {
        let mut line = self;
        let kept = length_without_return(line.bytes.as_slice());
        line.bytes.truncate(kept);
        line
    }

    /// Returns its bytes as a string.
    pub(crate) fn text(&self, alloc: Global) -> Result<Text, NoMemory>
        ensures { IfOk result (λ text. text ≡ self.now) }
    {
        match Text::of(alloc, self.bytes.as_slice()) {
            Ok(text) => Ok(text),
            Err(_) => Err(NoMemory),
        }
    }

    /// Takes bytes up to its line feed. Zeros are skipped, and the bytes between zeros are taken
    /// together.
    pub(crate) fn take_from(self, bytes: &[u8]) -> Result<Taken, NoMemory>
        ensures taken { IfOk result (λ taken. taken ≡ takes_from self bytes.now) }
        ensures left { IfOk result (λ taken. bytes_left taken ≤ length bytes.now) }
    {
        let mut line = self;
        let mut rest = bytes;
        while !rest.is_empty() {
            let (run, behind) = rest.split_at(run_in_front(rest));
            let room = line.room();
            if run.len() > room {
                let left = rest.len() - room - 1;
                return Ok(Taken::TooMany { left });
            }
            line.push(run)?;
            match behind {
                [] => rest = behind,
                [byte, more @ ..] => {
                    if *byte == LINE_FEED {
                        let left = more.len();
                        return Ok(Taken::LineTaken { line, left });
                    }
                    rest = more;
                }
            }
        }
        Ok(Taken::AllTaken(line))
    }
}

impl Taken {
    /// Returns how many bytes are left.
    pub(crate) fn left(&self) -> usize
        ensures { result ≡ bytes_left self.now }
    {
        match self {
            Taken::AllTaken(_) => 0,
            Taken::LineTaken { left, .. } => *left,
            Taken::TooMany { left } => *left,
        }
    }
}

/// Returns whether a byte is added to the line.
fn is_kept(byte: u8) -> bool
    ensures { result ≡ is_kept byte }
{
    byte != 0 && byte != LINE_FEED
}

/// Returns how many leading bytes are added to the line.
fn run_in_front(bytes: &[u8]) -> usize
    ensures count { result ≡ prefix_len is_kept bytes.now }
    ensures within { result ≤ length bytes.now }
{
    bytes.iter().take_while(|byte| is_kept(**byte)).count()
}

/// Returns how many bytes the line has without a CR at its end.
fn length_without_return(line: &[u8]) -> usize
    ensures { take result line.now ≡ without_last_return line.now }
{
    match line {
        [kept @ .., RETURN] => kept.len(),
        _ => line.len(),
    }
}
