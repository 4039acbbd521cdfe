//! Arrays as matrices: their bounds, the places of their rows and columns, their numbers in order,
//! and stores to all elements without a subscript 0.

ghost use Rattle.std.specs.Prelude.{◌≡◌, ◌+◌, ◌≤◌, take, drop, vec_len, IfOk};
ghost use Rattle.job_memory.specs.Matrices.{bounds, count_in, subscripts_at, is_inner, numbers};
ghost use Rattle.job_memory.specs.Matrices.{number_in_list, renumbered, renumbered_in};
ghost use Rattle.job_memory.specs.Memory.{array, arrays_size};
ghost use Rattle.job_memory.specs.Slots.{IsOrdered};

use crate::contents::MOST_ROOM;
use crate::memory::Memory;
use crate::slots::Slots;
use crate::tables::Table;
use basic_tree::Name;
use basic_values::{Int, NoMemory};

/// Returns the row and the column of the element at a place, given the largest second subscript. An
/// array of one subscript has one column, number 1.
pub fn subscripts_at(second: Option<u16>, place: usize) -> (usize, usize)
    ensures { result ≡ subscripts_at second place }
{
    match second {
        Some(second) => {
            let width = usize::from(second) + 1;
            (place / width, place % width)
        }
        None => (place, 1),
    }
}

/// Returns whether neither subscript is 0.
pub fn is_inner(subscripts: (usize, usize)) -> bool
    ensures { result ≡ is_inner subscripts }
{
    subscripts.0 >= 1 && subscripts.1 >= 1
}

impl Memory {
    /// Returns the largest subscripts of an array; none if no array of that name was made.
    pub fn bounds(&self, name: Name) -> Option<(u16, Option<u16>)>
        ensures { result ≡ bounds name self.now }
    {
        match self.arrays.get(name) {
            Some(table) => Some(table.bounds()),
            None => None,
        }
    }

    /// Returns the numbers of an array, in the order of its elements: the last subscript runs
    /// fastest. There are none if it was not made.
    pub fn numbers(&self, name: Name) -> Result<Vec<Int>, NoMemory>
        ensures numbers { IfOk result (λ list. list.items ≡ numbers name self.now) }
        ensures count { IfOk result (λ list. vec_len list ≡ count_in (bounds name self.now)) }
    {
        match self.arrays.get(name) {
            Some(table) => table.numbers(self.alloc),
            None => Ok(Vec::new(self.alloc)),
        }
    }

    /// Returns `count` of these numbers, from a place on.
    pub fn numbers_from(
        &self,
        name: Name,
        place: usize,
        length: usize,
    ) -> Result<Vec<Int>, NoMemory>
        requires { place + length ≤ count_in (bounds name self.now) }
        ensures numbers { IfOk result
            (λ list. list.items ≡ take length (drop place (numbers name self.now))) }
        ensures count { IfOk result (λ list. vec_len list ≡ length) }
    {
        match self.arrays.get(name) {
            Some(table) => table.numbers_from(self.alloc, place, length),
            None => Ok(Vec::new(self.alloc)),
        }
    }

    /// Stores to each element without a subscript 0 the number at its place, in the order of
    /// `numbers`; past the end of the list that is 0. Elements with a subscript 0 stay. Takes no
    /// memory, and does nothing if the array was not made.
    pub fn set_numbers(&mut self, name: Name, numbers: &[Int])
        ensures { self.new ≡ renumbered name (number_in_list numbers.now) self.old }
    {
        self.room = renumber_in(&mut self.arrays, name, numbers, self.room);
    }
}

/// Renumbers one of the arrays, and returns the total size then.
fn renumber_in(arrays: &mut Slots<Table>, name: Name, numbers: &[Int], room: usize) -> usize
    requires ordered { IsOrdered arrays.old }
    requires counted { arrays_size arrays.old ≤ room }
    requires few { room ≤ MOST_ROOM }
    ensures entries { arrays.new
        ≡ renumbered_in name (number_in_list numbers.now) arrays.old
        (array name arrays.old) }
    ensures room { result + arrays_size arrays.old ≡ room + arrays_size arrays.new }
    ensures no_more { result ≤ room }
    ensures still_ordered { IsOrdered arrays.new }
{
    match arrays.get_mut(name) {
        Some(table) => table.renumber(numbers, room),
        None => room,
    }
}
