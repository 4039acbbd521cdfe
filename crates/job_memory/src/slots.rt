//! What is stored under names, without a search: each letter has a row, and each name of that
//! letter has its own slot there.

ghost use Rattle.std.specs.Prelude.{◌≡◌, ◌<◌, [], vec_len, option_copied, IfOk, OnOk, OnErr, Some};
ghost use Rattle.std.specs.Prelude.{None};
ghost use Rattle.std.specs.BTreeMap.{insert_entry};
ghost use Rattle.std.specs.Borrow.{sem};
ghost use Rattle.std.specs.Map.{lookup, remove_entry};
ghost use Rattle.std.specs.Option.{option_copied_mut};
ghost use Rattle.job_memory.specs.Names.{name_cmp, at_name};
ghost use Rattle.job_memory.specs.SlotLends.{lends_slot, lends_value};
ghost use Rattle.job_memory.specs.Slots.{slot_of, slot_in, SameSlots, SameRows, HoldsAt, IsOrdered};

use basic_tree::Name;
use basic_values::NoMemory;
use std::alloc::Global;
use std::marker::Model;

/// What is stored under the names of one letter.
#[derive(Drop)]
pub(crate) struct Row<T> {
    pub(crate) slots: Vec<Option<T>>,
}

impl<T> Model for Row<T> {
    ghost use Rattle.std.specs.Prelude.{List, Option};

    ghost Value = { List (Option T) };

    ghost view = { λ row. row.slots.items };
}

/// What is stored under names. Its model is the list of its entries in the order of names.
#[derive(Drop)]
pub(crate) struct Slots<T> {
    alloc: Global,
    pub(crate) rows: Vec<Row<T>>,
}

impl<T> Model for Slots<T> {
    ghost use Rattle.std.specs.Prelude.{List};
    ghost use Rattle.basic_tree.specs.declared.names.Name.{Name};
    ghost use Rattle.job_memory.specs.Slots.{entries_of};

    ghost Value = { List (Name × T) };

    ghost view = { λ slots. entries_of slots.rows.items };
}

/// Returns the slot of a name in the row of its letter: a number comes before a string.
fn slot_of(name: Name) -> usize
    ensures { result ≡ slot_of name }
{
    let place = match name.digit {
        Some(digit) => usize::from(digit) + 1,
        None => 0,
    };
    2 * place + usize::from(name.text)
}

/// Extends the slots up to this one. New slots are empty.
fn reach_slot<T: Drop>(slots: &mut Vec<Option<T>>, slot: usize) -> Result<(), NoMemory>
    ensures same { SameSlots slots.old.items slots.new.items }
    ensures reaches { OnOk result (slot < vec_len slots.new) }
{
    while slots.len() <= slot {
        slots.push(None)?;
    }
    Ok(())
}

/// Extends the rows up to that of this letter. New rows have no slots.
fn reach_row<T: Drop>(alloc: Global, rows: &mut Vec<Row<T>>, letter: usize) -> Result<(), NoMemory>
    ensures same { SameRows rows.old.items rows.new.items }
    ensures reaches { OnOk result (letter < vec_len rows.new) }
{
    while rows.len() <= letter {
        let slots = Vec::new(alloc);
        rows.push(Row { slots })?;
    }
    Ok(())
}

impl<T: Drop> Row<T> {
    fn get(&self, slot: usize) -> Option<&T>
        ensures { option_copied result ≡ slot_in self.now slot }
    {
        match self.slots.get(slot) {
            Some(Some(value)) => Some(value),
            Some(None) | None => None,
        }
    }

    fn get_mut(&mut self, slot: usize) -> Option<&mut T>
        ensures* writes_back { sem 𝓛 (lends_slot T.row self.entry slot result) }
        ensures value { option_copied_mut result ≡ slot_in self.old slot }
    {
        match self.slots.get_mut(slot) {
            Some(Some(value)) => Some(value),
            Some(None) | None => None,
        }
    }

    fn insert(&mut self, slot: usize, value: T) -> Result<Option<T>, NoMemory>
        ensures old { IfOk result (λ old. old ≡ slot_in self.old slot) }
        ensures stores { OnOk result (HoldsAt slot (Some value) self.old self.new) }
        ensures refused { OnErr result (SameSlots self.old self.new) }
    {
        reach_slot(&mut self.slots, slot)?;
        Ok(self.slots[slot].replace(value))
    }

    fn remove(&mut self, slot: usize) -> Option<T>
        ensures old { result ≡ slot_in self.old slot }
        ensures removes { HoldsAt slot None self.old self.new }
    {
        if slot < self.slots.len() {
            self.slots[slot].take()
        } else {
            None
        }
    }
}

impl<T: Drop> Slots<T> {
    /// Returns slots with nothing stored. Takes no memory.
    pub(crate) fn new(alloc: Global) -> Slots<T>
        ensures empty { result ≡ [] }
        ensures ordered { IsOrdered result }
    {
        Slots {
            alloc,
            rows: Vec::new(alloc),
        }
    }

    /// Forgets everything.
    pub(crate) fn clear(&mut self)
        ensures empty { self.new ≡ [] }
        ensures ordered { IsOrdered self.new }
    {
        self.rows.clear();
    }

    /// Returns what is stored under a name.
    pub(crate) fn get(&self, name: Name) -> Option<&T>
        ensures value { option_copied result ≡ lookup (at_name name) self.now }
    {
        match self.rows.get(usize::from(name.letter)) {
            Some(row) => row.get(slot_of(name)),
            None => None,
        }
    }

    /// Returns what is stored under a name, to be changed in place.
    pub(crate) fn get_mut(&mut self, name: Name) -> Option<&mut T>
        ensures* writes_back { sem 𝓛 (lends_value T.row self.entry name result) }
        ensures value { option_copied_mut result ≡ lookup (at_name name) self.old }
        ensures ordered { IsOrdered self.old }
    {
        let slot = slot_of(name);
        match self.rows.get_mut(usize::from(name.letter)) {
            Some(row) => row.get_mut(slot),
            None => None,
        }
    }

    /// Stores under a name, and returns what was stored there.
    pub(crate) fn insert(&mut self, name: Name, value: T) -> Result<Option<T>, NoMemory>
        ensures old { IfOk result (λ old. old ≡ lookup (at_name name) self.old) }
        ensures entries { OnOk result (self.new ≡ insert_entry name_cmp self.old name value) }
        ensures err { OnErr result (self.new ≡ self.old) }
        ensures ordered { IsOrdered self.new }
    {
        let letter = usize::from(name.letter);
        reach_row(self.alloc, &mut self.rows, letter)?;
        self.rows[letter].insert(slot_of(name), value)
    }

    /// Removes what is stored under a name, and returns it.
    pub(crate) fn remove(&mut self, name: Name) -> Option<T>
        ensures value { result ≡ lookup (at_name name) self.old }
        ensures entries { self.new ≡ remove_entry (at_name name) self.old }
        ensures ordered { IsOrdered self.new }
    {
        let letter = usize::from(name.letter);
        if letter < self.rows.len() {
            self.rows[letter].remove(slot_of(name))
        } else {
            None
        }
    }
}
