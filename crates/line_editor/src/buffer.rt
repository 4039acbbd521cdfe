//! The lines of a program in one buffer, in the form in which they are listed.

ghost use Rattle.std.specs.Prelude.{◌≡◌, ◌+◌, ◌<◌, ◌≤◌, [], ◌∷◌, ◌++◌, length, take, drop, map};
ghost use Rattle.std.specs.Prelude.{MatchOption, IfOk, OnOk, OnErr, vec_len, vec_capacity};
ghost use Rattle.std.specs.List.{AllWithin, remove_range, splice};
ghost use Rattle.basic_tree.specs.ProgramLines.{line, stored, within, without, listed, listing};
ghost use Rattle.line_editor.specs.Marks.{moved, CanMove, IsOrderly, IsPlaced};

use basic_values::NoMemory;
use itoa::Buffer;
use std::alloc::Global;
use std::marker::Model;

/// The number of bytes that end a listed line: CR and LF.
const LINE_END: usize = 2;

/// Where a line is in the buffer.
#[derive(Clone, Copy)]
pub(crate) struct Mark {
    pub(crate) number: u16,
    /// Where the bytes after the number begin.
    pub(crate) begins: usize,
    /// How many bytes follow the number.
    pub(crate) count: usize,
}

/// The lines from one number to another: the place of the first, and the place after the last.
#[derive(Clone, Copy)]
pub(crate) struct Places {
    pub(crate) first: usize,
    pub(crate) behind: usize,
}

/// The listing of all lines without a gap, and where each of them is in it, in the order of their
/// numbers.
#[derive(Drop)]
pub(crate) struct LineBuffer {
    bytes: Vec<u8>,
    marks: Vec<Mark>,
}

impl Model for LineBuffer {
    ghost use Rattle.basic_tree.specs.ProgramLines.{Lines};

    ghost Value = { Lines };

    ghost use Rattle.line_editor.specs.Marked.{lines_marked, IsMarked};

    ghost view = { lines_marked };

    ghost invariant = { IsMarked };
}

impl LineBuffer {
    /// Returns a buffer without lines. It takes no memory.
    pub(crate) fn new(alloc: Global) -> LineBuffer
        ensures { result ≡ [] }
    {
        LineBuffer {
            bytes: Vec::new(alloc),
            marks: Vec::new(alloc),
        }
    }

    /// Returns the number of lines.
    pub(crate) fn len(&self) -> usize
        ensures { result ≡ length self.now }
    {
        self.marks.len()
    }

    /// Returns the lines from one number to another, as they are listed.
    pub(crate) fn list(&self, from: u16, to: u16) -> &[u8]
        ensures { result.now ≡ listing (within from to self.entry.now) }
    {
        let places = self.places(from, to);
        let start = self.start_of(places.first);
        let end = self.start_of(places.behind);
        &self.bytes.as_slice()[start..end]
    }

    /// Returns what follows the number of a line, if there is such a line.
    pub(crate) fn line(&self, number: u16) -> Option<&[u8]>
        ensures { MatchOption result
            (line number self.entry.now ≡ None)
            (λ rest. line number self.entry.now ≡ Some rest.now) }
    {
        let places = self.places(number, number);
        if places.first == places.behind {
            return None;
        }
        let mark = self.marks[places.first];
        let begins = mark.begins;
        Some(&self.bytes.as_slice()[begins..begins + mark.count])
    }

    /// Stores a line, and replaces one with the same number. What follows it is moved once.
    pub(crate) fn store(&mut self, alloc: Global, number: u16, rest: &[u8]) -> Result<(), NoMemory>
        ensures ok { OnOk result (self.new ≡ stored number rest.now self.old) }
        ensures memory { OnErr result (self.new ≡ self.old) }
        ensures orderly { OnOk result (IsOrderly self.new) }
    {
        let listed = listed_line(alloc, number, rest)?;
        let added = listed.len();
        let places = self.places(number, number);
        let start = self.start_of(places.first);
        let end = self.start_of(places.behind);
        self.marks.reserve(1)?;
        put_bytes(&mut self.bytes, start, end, listed)?;
        let count = rest.len();
        let mark = Mark {
            number,
            begins: start + added - LINE_END - count,
            count,
        };
        put_mark(&mut self.marks, places, mark);
        shift(&mut self.marks, places.first + 1, end - start, added);
        Ok(())
    }

    /// Deletes the lines from one number to another.
    pub(crate) fn remove(&mut self, from: u16, to: u16)
        ensures { self.new ≡ without from to self.old }
    {
        let places = self.places(from, to);
        let start = self.start_of(places.first);
        let end = self.start_of(places.behind);
        take_out(&mut self.bytes, start, end);
        take_out(&mut self.marks, places.first, places.behind);
        shift(&mut self.marks, places.first, end - start, 0);
    }

    /// Returns the places of the lines from one number to another.
    fn places(&self, from: u16, to: u16) -> Places
        ensures { IsPlaced from to self.now result }
    {
        let first = self.place_of(u32::from(from));
        let behind = self.place_of(u32::from(to) + 1);
        Places {
            first,
            behind: behind.max(first),
        }
    }

    /// Returns how many lines have a smaller number.
    fn place_of(&self, number: u32) -> usize
        ensures within { result ≤ length self.now }
        ensures below { AllWithin (λ line. line.0 < number) self.now 0 result }
        ensures others { AllWithin (λ line. number ≤ line.0) self.now result (length self.now) }
    {
        self.marks
            .as_slice()
            .partition_point(|mark| u32::from(mark.number) < number)
    }

    /// Returns where a line begins, or where the last one ends.
    fn start_of(&self, place: usize) -> usize
        requires { place ≤ length self.now }
        ensures { result ≡ length (listing (take place self.now)) }
    {
        if place == 0 {
            return 0;
        }
        let before = self.marks[place - 1];
        before.begins + before.count + LINE_END
    }
}

/// Removes the items from one place to another.
fn take_out<T: Drop>(items: &mut Vec<T>, start: usize, end: usize)
    requires rises { start ≤ end }
    requires within { end ≤ length items.old.items }
    ensures { items.new.items ≡ remove_range items.old.items start end }
{
    items.drain(start..end);
}

/// Replaces the bytes from one place to another by a line.
fn put_bytes(bytes: &mut Vec<u8>, start: usize, end: usize, line: Vec<u8>) -> Result<(), NoMemory>
    requires rises { start ≤ end }
    requires within { end ≤ length bytes.old.items }
    ensures ok { OnOk result (bytes.new.items ≡ splice bytes.old.items start end line.items) }
    ensures memory { OnErr result (bytes.new.items ≡ bytes.old.items) }
{
    bytes.splice(start..end, line)?;
    Ok(())
}

/// Replaces the mark of a line, or inserts one, in memory that was reserved.
fn put_mark(marks: &mut Vec<Mark>, places: Places, mark: Mark)
    requires rises { places.first ≤ places.behind }
    requires one { places.behind ≤ places.first + 1 }
    requires within { places.behind ≤ length marks.old.items }
    requires room { vec_len marks.old < vec_capacity marks.old }
    ensures { marks.new.items ≡ splice marks.old.items places.first places.behind (mark ∷ []) }
{
    if places.first < places.behind {
        marks[places.first] = mark;
    } else {
        let _ = marks.insert(places.first, mark);
    }
}

/// Moves the marks from this place on, as the bytes after a change have moved.
fn shift(marks: &mut Vec<Mark>, from: usize, removed: usize, added: usize)
    requires within { from ≤ length marks.old.items }
    requires moves { AllWithin (CanMove removed added) marks.old.items from
        (length marks.old.items) }
    ensures { marks.new.items
        ≡ take from marks.old.items ++ map (moved removed added) (drop from marks.old.items) }
{
    for place in from..marks.len() {
        let mark = marks[place];
        marks[place] = Mark {
            number: mark.number,
            begins: mark.begins - removed + added,
            count: mark.count,
        };
    }
}

/// Returns a line as it is listed: the number, the bytes after it, CR and LF.
fn listed_line(alloc: Global, number: u16, rest: &[u8]) -> Result<Vec<u8>, NoMemory>
    ensures { IfOk result (λ bytes. bytes.items ≡ listed (number, rest.now)) }
{
    let mut bytes = Vec::from_slice(alloc, Buffer::new().format(number).as_bytes())?;
    bytes.extend_from_slice(rest)?;
    bytes.extend_from_slice(b"\r\n")?;
    Ok(bytes)
}
