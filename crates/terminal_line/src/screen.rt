//! The screen of a terminal.

ghost use Rattle.std.specs.Prelude.{◌≡◌, [], ◌++◌, ◌≤◌, OnOk, OnErr, codes, replicate};
ghost use Rattle.std.specs.List.{fold};
ghost use Rattle.basic_values.specs.Texts.{space};
ghost use Rattle.terminal_line.specs.Columns.{column_of, zone_text, tab_text, fresh_text};
ghost use Rattle.terminal_line.specs.Columns.{on_fresh_line};
ghost use Rattle.terminal_line.specs.Writing.{Writes};

use crate::columns::{LAST_ZONE, MOST_COLUMN, ZONE_WIDTH, column_from};
use basic_values::{Int, NoMemory, Text2};
use std::alloc::Global;
use std::marker::Model;

/// The bytes that a terminal was given so far. A write during which memory runs out adds nothing.
#[derive(Drop)]
pub struct Screen {
    bytes: Vec<u8>,
    column: u32,
}

impl Model for Screen {
    ghost use Rattle.std.specs.Prelude.{List, ℕ, ◌≡◌};
    ghost use Rattle.terminal_line.specs.Columns.{column_of};

    ghost Value = { List ℕ };

    ghost view = { λ screen. screen.bytes.items };

    ghost invariant = { λ screen. screen.column ≡ column_of screen.bytes.items };
}

impl Screen {
    /// Returns a screen without bytes. It takes no memory.
    pub fn new(alloc: Global) -> Screen
        ensures { result ≡ [] }
    {
        Screen {
            bytes: Vec::new(alloc),
            column: 0,
        }
    }

    /// Writes the bytes at the end.
    pub fn write(&mut self, bytes: &[u8]) -> Result<(), NoMemory>
        ensures { Writes bytes.now self.old self.new result }
    {
        self.bytes.extend_from_slice(bytes)?;
        self.column = column_from(self.column, bytes);
        Ok(())
    }

    /// Writes a key line as it was typed, with CR and LF.
    pub fn echo(&mut self, line: &[u8]) -> Result<(), NoMemory>
        ensures { Writes (line.now ++ codes "\r\n") self.old self.new result }
    {
        let old = self.bytes.len();
        self.bytes.extend_from_slice(line)?;
        if self.bytes.extend_from_slice(b"\r\n").is_err() {
            self.bytes.truncate(old);
            return Err(NoMemory);
        }
        self.column = 0;
        Ok(())
    }

    /// Writes what a comma of PRINT does: spaces up to the next zone, or CR and LF in the last one.
    pub fn zone(&mut self) -> Result<(), NoMemory>
        ensures { Writes (zone_text (column_of self.old)) self.old self.new result }
    {
        if self.column >= LAST_ZONE {
            self.write(b"\r\n")
        } else {
            self.write_spaces(ZONE_WIDTH - self.column % ZONE_WIDTH)
        }
    }

    /// Writes what TAB of PRINT does: spaces up to column `n`, if the column is less.
    pub fn tab(&mut self, n: Int) -> Result<(), NoMemory>
        ensures { Writes (tab_text n (column_of self.old)) self.old self.new result }
    {
        let wanted = n.value().max(0).unsigned_abs();
        self.write_spaces(u32::from(wanted).saturating_sub(self.column))
    }

    /// Writes bytes at the start of a line: CR and LF come first, unless the column is 0. If memory
    /// runs out, the screen is as it was.
    pub fn begin_line(&mut self, text: &[u8]) -> Result<(), NoMemory>
        ensures written { OnOk result (self.new ≡ on_fresh_line text.now self.old) }
        ensures refused { OnErr result (self.new ≡ self.old) }
    {
        let length = self.bytes.len();
        let column = self.column;
        self.fresh_line()?;
        if self.write(text).is_err() {
            self.bytes.truncate(length);
            self.column = column;
            return Err(NoMemory);
        }
        Ok(())
    }

    /// Writes CR and LF, unless the column is 0.
    fn fresh_line(&mut self) -> Result<(), NoMemory>
        ensures { Writes (fresh_text (column_of self.old)) self.old self.new result }
    {
        if self.column == 0 {
            Ok(())
        } else {
            self.write(b"\r\n")
        }
    }

    /// Returns the column of the next byte.
    #[tactic(auto, using(crate::proofs::ColumnLemmas::most))]
    pub fn column(&self) -> u32
        ensures column { result ≡ column_of self.now }
        ensures most { result ≤ MOST_COLUMN }
    {
        self.column
    }

    /// Returns the bytes so far.
    pub fn bytes(&self) -> &[u8]
        ensures { result.now ≡ self.now }
    {
        self.bytes.as_slice()
    }

    /// Returns the bytes, and ends the screen. It takes no memory.
    pub fn close(self) -> Text2
        ensures { result ≡ self }
    {
        Text2::from_vec(self.bytes)
    }

    fn write_spaces(&mut self, count: u32) -> Result<(), NoMemory>
        requires { count ≤ MOST_COLUMN }
        ensures { Writes (replicate count space) self.old self.new result }
    {
        let old = self.bytes.len();
        self.bytes.resize(old + count as usize, b' ')?;
        self.column = column_from(self.column, &self.bytes[old..]);
        Ok(())
    }
}
