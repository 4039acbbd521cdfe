//! The lines of a program and their trees.

ghost use Rattle.std.specs.Prelude.{◌≡◌, ◌≤◌, [], length, filter, not, MatchOption, OnOk, OnErr};
ghost use Rattle.std.specs.Prelude.{IsTrue, ◌↔◌};
ghost use Rattle.std.specs.Fmt.{decimal};
ghost use Rattle.line_editor.specs.Edits.{Edits, Keeps, HasRoom, Deletes};
ghost use Rattle.basic_tree.specs.ProgramLines.{line, stored, is_within, within, without, listing};
ghost use Rattle.line_editor.specs.Lines.{IsNumber, IsProgram, IsProgramLine, IsTreeOf, AreTrees};
ghost use Rattle.line_editor.specs.Seen.{AreWhole};
ghost use Rattle.line_editor.specs.Judging.{IsEditVerdict};

use crate::buffer::LineBuffer;
use basic_line::read_line;
use basic_tree::{Line, Program, Refusal};
use basic_values::limits::{MOST_LINES, MOST_NUMBER};
use basic_values::{LINE_LENGTH, NoMemory, Trouble};
use itoa::Buffer;
use std::alloc::Global;
use std::collections::BTreeMap;
use std::marker::Model;

/// Why a line is not stored: the first of these causes that applies.
#[derive(Clone, Copy, Debug, PartialEq, Eq)]
pub enum EditRefusal {
    /// The number is not from 1 to 32767.
    Number,
    /// The line has more than 255 bytes with its number.
    TooLong,
    /// What follows the number spells no line. Places are counted after the number.
    Line(Refusal),
    /// It would be line 1,001.
    TooMany,
}

/// The text of a program: its listing in one buffer, and the trees of the lines.
#[derive(Drop)]
pub struct ProgramText {
    pub(crate) alloc: Global,
    pub(crate) buffer: LineBuffer,
    pub(crate) program: Program,
}

impl Model for ProgramText {
    ghost use Rattle.basic_tree.specs.ProgramLines.{Lines};

    ghost Value = { Lines };

    ghost use Rattle.line_editor.specs.Seen.{lines_seen, IsWhole};

    ghost view = { lines_seen };

    ghost invariant = { IsWhole };
}

impl ProgramText {
    /// Returns a program without lines. Takes no memory.
    pub fn new(alloc: Global) -> ProgramText
        ensures { result ≡ [] }
    {
        ProgramText {
            alloc,
            buffer: LineBuffer::new(alloc),
            program: Program {
                lines: BTreeMap::new(alloc),
            },
        }
    }

    /// Stores a line with this number and the rest after it. An empty rest deletes the line. A
    /// rejected line changes nothing.
    pub fn put_line(&mut self, number: u16, rest: &[u8]) -> Result<(), Trouble<EditRefusal>>
        ensures { Edits number rest.now self.old self.new result }
    {
        if rest.is_empty() {
            self.delete_line(number)
        } else {
            self.keep(number, rest)
        }
    }

    /// Deletes the lines from one number to another.
    pub fn delete(&mut self, from: u16, to: u16)
        ensures { self.new ≡ without from to self.old }
    {
        self.buffer.remove(from, to);
        delete_trees(&mut self.program.lines, from, to);
    }

    /// Returns the lines from one number to another as they are listed: the number, the bytes after
    /// it, CR and LF. They are borrowed, so it takes no memory.
    pub fn list(&self, from: u16, to: u16) -> &[u8]
        ensures { result.now ≡ listing (within from to self.entry.now) }
    {
        self.buffer.list(from, to)
    }

    /// Returns the bytes after the number of a line, or `None` if there is no such line. They are
    /// borrowed, so it takes no memory.
    pub fn line(&self, number: u16) -> Option<&[u8]>
        ensures { MatchOption result
            (line number self.entry.now ≡ None)
            (λ rest. line number self.entry.now ≡ Some rest.now) }
    {
        self.buffer.line(number)
    }

    /// Returns the trees of the lines, by their numbers.
    pub fn program(&self) -> &Program
        ensures trees { AreTrees self.entry.now result.now.lines.entries }
        ensures program { IsProgram self.entry.now }
    {
        &self.program
    }

    /// Stores a line, whose rest may be empty.
    pub(crate) fn keep(&mut self, number: u16, rest: &[u8]) -> Result<(), Trouble<EditRefusal>>
        ensures { Keeps number rest.now self.old self.new result }
    {
        let tree = judged(self.alloc, number, rest)?;
        if !self.has_room(number) {
            return Err(Trouble::Refused(EditRefusal::TooMany));
        }
        store(
            self.alloc,
            &mut self.buffer,
            &mut self.program.lines,
            number,
            rest,
            tree,
        )?;
        Ok(())
    }

    fn delete_line(&mut self, number: u16) -> Result<(), Trouble<EditRefusal>>
        ensures { Deletes number self.old self.new result }
    {
        if !is_number(number) {
            return Err(Trouble::Refused(EditRefusal::Number));
        }
        self.buffer.remove(number, number);
        self.program.lines.remove(&number);
        Ok(())
    }

    fn has_room(&self, number: u16) -> bool
        ensures { IsTrue result ↔ HasRoom number self.now }
    {
        self.buffer.line(number).is_some() || self.buffer.len() < MOST_LINES
    }
}

/// Stores a line and its tree, or neither if memory runs out.
fn store(
    alloc: Global,
    buffer: &mut LineBuffer,
    trees: &mut BTreeMap<u16, Line>,
    number: u16,
    rest: &[u8],
    tree: Line,
) -> Result<(), NoMemory>
    requires whole { AreWhole buffer.old trees.old }
    requires line { IsProgramLine (number, rest.now) }
    requires tree { IsTreeOf rest.now tree }
    requires room { HasRoom number buffer.old }
    ensures whole { AreWhole buffer.new trees.new }
    ensures ok { OnOk result (buffer.new ≡ stored number rest.now buffer.old) }
    ensures memory { OnErr result (buffer.new ≡ buffer.old) }
{
    buffer.store(alloc, number, rest)?;
    match trees.insert(number, tree) {
        Ok(_) => Ok(()),
        Err(_) => {
            buffer.remove(number, number);
            Err(NoMemory)
        }
    }
}

/// Deletes the trees of the lines from one number to another.
fn delete_trees(trees: &mut BTreeMap<u16, Line>, from: u16, to: u16)
    ensures { trees.new.entries
        ≡ filter (λ line. not (is_within from to line.0)) trees.old.entries }
{
    trees.retain(|number, _| !is_within(from, to, *number));
}

/// Returns whether the number is from `from` to `to`.
fn is_within(from: u16, to: u16, number: u16) -> bool
    ensures { result ≡ is_within from to number }
{
    from <= number && number <= to
}

/// Returns the tree of a line that can be stored if one more line is allowed, or why it can't.
fn judged(alloc: Global, number: u16, rest: &[u8]) -> Result<Line, Trouble<EditRefusal>>
    ensures { IsEditVerdict number rest.now result }
{
    if !is_number(number) {
        return Err(Trouble::Refused(EditRefusal::Number));
    }
    if rest.len() > LINE_LENGTH - digits_of(number) {
        return Err(Trouble::Refused(EditRefusal::TooLong));
    }
    match read_line(alloc, rest) {
        Ok(line) => Ok(line),
        Err(Trouble::Refused(refusal)) => Err(Trouble::Refused(EditRefusal::Line(refusal))),
        Err(Trouble::NoMemory) => Err(Trouble::NoMemory),
    }
}

/// Returns whether a line can have this number.
fn is_number(number: u16) -> bool
    ensures { IsTrue result ↔ IsNumber number }
{
    (1..=MOST_NUMBER).contains(&number)
}

/// Returns the number of digits.
fn digits_of(number: u16) -> usize
    ensures digits { result ≡ length (decimal number) }
    ensures few { result ≤ 5 }
{
    Buffer::new().format(number).len()
}
