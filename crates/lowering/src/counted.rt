//! The number of instructions of code, without the code.

ghost use Rattle.std.specs.Prelude.{◌≡◌};

use crate::sink::{Jump, Over, Sink};
use basic_values::NoMemory;
use code_places::next;
use polish_code::Item;
use std::alloc::Global;
use std::marker::Model;

/// Counts the instructions that are put before each other.
#[derive(Drop)]
pub struct Counted {
    count: u32,
}

impl Model for Counted {
    ghost use Rattle.std.specs.Prelude.{ℕ};

    ghost Value = { ℕ };

    ghost view = { λ counted. counted.count };
}

impl Counted {
    /// Returns a count of 0.
    pub fn new() -> Counted
        ensures { result ≡ 0 }
    {
        Counted { count: 0 }
    }

    /// Returns the count.
    pub fn count(&self) -> u32
        ensures { result ≡ self.entry.now }
    {
        self.count
    }
}

impl Sink for Counted {
    ghost use Rattle.lowering.specs.Emission.{one_more};

    ghost with = { one_more };

    fn put(&mut self, _item: Item) -> Result<(), NoMemory> {
        self.count = next(self.count)?;
        Ok(())
    }

    fn put_jump(
        &mut self,
        _alloc: Global,
        _jump: Jump<'_>,
        _over: Over<'_>,
    ) -> Result<(), NoMemory> {
        self.count = next(self.count)?;
        Ok(())
    }
}
