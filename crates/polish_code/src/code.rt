//! Bytecode: its instructions, its DATA items, and the places of lines.

ghost use Rattle.std.specs.Prelude.{◌≡◌};
ghost use Rattle.polish_code.specs.KeptCode.{code_kept};

use crate::items::Item;
use crate::lines::LinePlace;
use basic_values::Text;
use std::marker::Model;

/// The bytecode of a program.
#[derive(Drop)]
pub struct Code {
    items: Vec<Item>,
    words: Vec<Text>,
    lines: Vec<LinePlace>,
}

impl Model for Code {
    ghost use Rattle.polish_code.specs.KeptCode.{KeptCode};

    ghost Value = { KeptCode };

    ghost view = { λ code. record {
      items = code.items.items;
      words = code.words.items;
      lines = code.lines.items;
    } };
}

impl Code {
    /// Returns the code of these instructions and DATA items, with the places of the lines in
    /// increasing order.
    pub fn new(items: Vec<Item>, words: Vec<Text>, lines: Vec<LinePlace>) -> Code
        ensures { result
            ≡ record { items = items.items; words = words.items; lines = lines.items } }
    {
        Code {
            items,
            words,
            lines,
        }
    }

    /// Returns the instructions; the first one is at place 0.
    pub fn items(&self) -> &[Item]
        ensures { result.now ≡ self.entry.now.items }
    {
        &self.items
    }

    /// Returns the DATA items, in the order of the source.
    pub fn words(&self) -> &[Text]
        ensures { result.now ≡ self.entry.now.words }
    {
        &self.words
    }

    /// Returns the place at which the program continues after a jump to a line.
    pub fn place_of(&self, number: u16) -> usize
        ensures { result ≡ (code_kept self.now).line number }
    {
        for line in self.lines.iter() {
            if line.number >= number {
                return line.place as usize;
            }
        }
        self.items.len()
    }
}
