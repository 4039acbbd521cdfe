//! Where the instructions of code go, one put before the other.
//!
//! The functions that emit code are generic over a sink: `Emitted` stores instructions, and
//! `Counted` counts them. So the instructions of a statement, and their number, are defined once.
//! An instruction that skips a part of a statement is put together with that part, and only a sink
//! that stores it counts the part. So a part is counted once for each stored jump over it, and not
//! again for each counted one.

ghost use Rattle.std.specs.Prelude.{◌≡◌, OnOk};
ghost use Rattle.polish_code.specs.declared.items.Item.{Item};
ghost use Rattle.lowering.specs.Jumps.{jump_item, items_over};

use basic_tree::{Clause, Expr, Name, Statement};
use basic_values::NoMemory;
use polish_code::Item;
use std::alloc::Global;

/// An instruction that skips a part of a statement, or goes back over it; each may include more.
#[derive(Clone, Copy)]
pub enum Jump<'a> {
    Skip,
    SkipUnless,
    SkipIf,
    /// Also skips the instruction before ELSE.
    SkipToElse,
    /// Also goes back over the test after it.
    BackIf(&'a Expr),
    BackUnless(&'a Expr),
    /// Begins a FOR, by its place among all; also skips the step back.
    OpenOrSkip { variable: Name, place: u32 },
    StepBack { variable: Name, place: u32 },
}

/// The part of a statement that an instruction skips.
#[derive(Clone, Copy)]
pub enum Over<'a> {
    /// A clause and its start.
    Clause(&'a Clause),
    /// The statement of a modifier and its start.
    Statement(&'a Statement),
    /// The value of a function of one line, and the instructions around it.
    Value(&'a Expr),
}

/// Where instructions go.
pub trait Sink {
    /// Its state with one more instruction before the others.
    ghost with: { Item → Self → Self };

    /// Puts an instruction before the others.
    fn put(&mut self, item: Item) -> Result<(), NoMemory>
        ensures { OnOk result (self.new ≡ with item self.old) };

    /// Puts a jump before the others.
    fn put_jump(&mut self, alloc: Global, jump: Jump<'_>, over: Over<'_>) -> Result<(), NoMemory>
        ensures { OnOk result (self.new
            ≡ with (jump_item jump.entry (items_over over.entry)) self.old) };
}
