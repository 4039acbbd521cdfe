//! A source that is read in lines.

ghost use Rattle.std.specs.Prelude.{◌≡◌, ◌≤◌, ℕ, Some, None, List, IfOk, IfSome, IsSome};
ghost use Rattle.basic_values.specs.Cuts.{cut};
ghost use Rattle.live_lines.specs.Reading.{TakenFrom, Gives};

use basic_values::{NoMemory, cut};
use rsts_io::{Source, Took};
use std::alloc::Global;
use std::marker::Model;

/// The most bytes that are taken from a source at a time.
pub const CHUNK: usize = 4096;

/// What comes next of a source.
#[derive(Drop)]
pub enum NextLine {
    /// A line, without its LF.
    Line(Vec<u8>),
    /// Its end. Bytes after the last LF are left.
    End,
    /// The source failed.
    Fault,
    /// The next line has more bytes than it may have.
    TooLong,
}

/// Reads a source in lines, and keeps the bytes that it took from it and did not return.
#[derive(Drop)]
pub struct LineReader {
    left: Vec<u8>,
}

impl Model for LineReader {
    ghost use Rattle.std.specs.Prelude.{List, ℕ};

    ghost Value = { List ℕ };

    ghost view = { λ reader. reader.left.items };
}

impl LineReader {
    ghost use Rattle.std.specs.Prelude.{[]};

    /// Returns a reader that took nothing yet.
    pub fn new(alloc: Global) -> LineReader
        ensures { result ≡ [] }
    {
        LineReader {
            left: Vec::new(alloc),
        }
    }

    /// Returns the bytes that were taken and not returned.
    pub fn left(&self) -> &[u8]
        ensures { result.now ≡ self.now }
    {
        self.left.as_slice()
    }

    /// Returns the next line of a source, which may have at most this many bytes, or why there is
    /// none. While it has a whole line it takes nothing from the source.
    pub fn next_line<S: Source>(
        &mut self,
        alloc: Global,
        source: &mut S,
        limit: usize,
    ) -> Result<NextLine, NoMemory>
        requires { limit ≤ 268435456 }
        ensures gives { IfOk result (λ next. (all : List ℕ)
            × TakenFrom (S.state source.old) (S.state source.new) self.old all
            × Gives next limit all self.new (S.state source.old) (S.state source.new)) }
        ensures no_further { IsSome (cut 10 self.old)
            → S.state source.new ≡ S.state source.old }
    {
        let mut chunk = [0u8; CHUNK];
        'reading: loop {
            if let Some(line) = take_line(alloc, &mut self.left)? {
                return Ok(NextLine::Line(line));
            }
            if self.left.len() > limit {
                return Ok(NextLine::TooLong);
            }
            match source.take(&mut chunk) {
                Took::End => return Ok(NextLine::End),
                Took::Failed => return Ok(NextLine::Fault),
                Took::Bytes(count) => self.left.extend_from_slice(&chunk[..count])?,
            }
        }
    }
}

/// Takes the first line out, without its LF, if there is a whole one.
fn take_line(alloc: Global, left: &mut Vec<u8>) -> Result<Option<Vec<u8>>, NoMemory>
    ensures none { IfOk result (λ line. line ≡ None → (cut 10 left.old.items ≡ None)
        × (left.new.items ≡ left.old.items)) }
    ensures line { IfOk result (λ line. IfSome line (λ bytes.
        cut 10 left.old.items ≡ Some (bytes.items, left.new.items))) }
{
    let Some((line, rest)) = cut(b'\n', left.as_slice()) else {
        return Ok(None);
    };
    let line = Vec::from_slice(alloc, line)?;
    let rest = Vec::from_slice(alloc, rest)?;
    *left = rest;
    Ok(Some(line))
}
