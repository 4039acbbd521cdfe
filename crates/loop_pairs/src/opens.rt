//! FORs that are open.

ghost use Rattle.std.specs.Prelude.{◌≡◌, ◌==◌, [], ◌∷◌, find, option_map, Some, OnOk, OnErr};
ghost use Rattle.program_model.specs.Program.{same_body, closed_by};
ghost use Rattle.loop_pairs.specs.Pairs.{open_seen, opens_seen, left_open};

use crate::same::{same_body, same_name};
use basic_tree::Name;
use basic_values::NoMemory;
use std::alloc::Global;
use std::marker::Model;

/// A FOR that no NEXT has closed yet: its number, its variable, and the body that it is in.
#[derive(Clone, Copy)]
pub struct OpenLoop {
    pub number: usize,
    pub variable: Name,
    pub body: Option<usize>,
}

/// The FORs that are open; contracts see the nearest first.
#[derive(Drop)]
pub struct Opens {
    items: Vec<OpenLoop>,
}

impl Model for Opens {
    ghost use Rattle.std.specs.Prelude.{List};
    ghost use Rattle.program_model.specs.Program as program;
    ghost use Rattle.loop_pairs.specs.Pairs.{opens_seen};

    ghost Value = { List program.OpenLoop };

    ghost view = { λ opens. opens_seen opens.items.items };
}

impl Opens {
    /// Returns an empty list.
    pub fn new(alloc: Global) -> Opens
        ensures { result ≡ [] }
    {
        Opens {
            items: Vec::new(alloc),
        }
    }

    /// Opens a FOR, which is then the nearest. If memory runs out, the same FORs are open as
    /// before.
    pub fn push(&mut self, opened: OpenLoop) -> Result<(), NoMemory>
        ensures opened { OnOk result (self.new ≡ open_seen opened ∷ self.old) }
        ensures memory { OnErr result (self.new ≡ self.old) }
    {
        self.items.push(opened)?;
        Ok(())
    }

    /// Closes the nearest open FOR of this body, if it has this variable, and returns its number.
    pub fn close(&mut self, variable: Name, body: Option<usize>) -> Option<usize>
        ensures number { result ≡ option_map (λ o. o.number) (closed_by variable body self.old) }
        ensures rest { self.new ≡ left_open result self.old }
    {
        match closed(&self.items, variable, body) {
            None => None,
            Some(number) => {
                remove(&mut self.items, number);
                Some(number)
            }
        }
    }
}

/// Returns the number of the FOR that a NEXT of this variable in this body closes.
fn closed(opens: &[OpenLoop], variable: Name, body: Option<usize>) -> Option<usize>
    ensures { result
        ≡ option_map (λ o. o.number) (closed_by variable body (opens_seen opens.now)) }
{
    match nearest(opens, body) {
        None => None,
        Some(opened) => {
            if same_name(opened.variable, variable) {
                Some(opened.number)
            } else {
                None
            }
        }
    }
}

/// Returns the FOR of a body that was opened last.
fn nearest(opens: &[OpenLoop], body: Option<usize>) -> Option<OpenLoop>
    ensures { option_map open_seen result
        ≡ find (λ o. same_body o.body body) (opens_seen opens.now) }
{
    for place in (0..opens.len()).rev() {
        if same_body(opens[place].body, body) {
            return Some(opens[place]);
        }
    }
    None
}

/// Removes the FOR with this number.
fn remove(opens: &mut Vec<OpenLoop>, number: usize)
    ensures { opens_seen opens.new.items ≡ left_open (Some number) (opens_seen opens.old.items) }
{
    opens.retain(|opened| opened.number != number);
}
