//! Arrays of numbers, read and stored whole.

use crate::expects::{expect, expect_none};
use crate::memory::{Told, dim, number_name};
use basic_tree::Name;
use basic_values::{Int, NoMemory};
use job_memory::Memory;
use std::alloc::Global;
use std::test::Fail;

/// Returns these numbers.
pub(crate) fn numbers_of(alloc: Global, values: &[i16]) -> Result<Vec<Int>, NoMemory> {
    let mut numbers = Vec::new(alloc);
    for value in values {
        numbers.push(Int::new(*value))?;
    }
    Ok(numbers)
}

/// Returns whether the numbers are these.
pub(crate) fn are(numbers: &[Int], values: &[i16]) -> bool {
    numbers.len() == values.len() && numbers.iter().zip(values).all(|(n, v)| n.value() == *v)
}

/// Returns a memory with an array of numbers.
fn memory_with(alloc: Global, name: Name, first: u16, second: Option<u16>) -> Result<Memory, Fail> {
    let mut memory = Memory::new(alloc);
    match dim(&mut memory, name, first, second) {
        Told::Done => Ok(memory),
        _ => Err("no array".into()),
    }
}

/// The bounds of an array, the numbers that are stored, and those that are there then.
type Row = (u16, Option<u16>, &'static [i16], &'static [i16]);

static STORED: [Row; 3] = [
    (2, Some(1), &[1, 2, 3, 4, 5, 6], &[0, 0, 0, 4, 0, 6]),
    (3, None, &[1, 2, 3, 4], &[0, 2, 3, 4]),
    (1, Some(2), &[1, 2, 3, 4], &[0, 0, 0, 0, 0, 0]),
];

/// Returns whether the array has its bounds, and the numbers are stored only to the elements
/// without a subscript 0.
fn stores_whole(alloc: Global, row: &Row) -> Result<bool, Fail> {
    let mut memory = memory_with(alloc, number_name(b'A'), row.0, row.1)?;
    is_stored_whole(alloc, &mut memory, row)
}

fn is_stored_whole(alloc: Global, memory: &mut Memory, row: &Row) -> Result<bool, Fail> {
    let (first, second, values, wanted) = *row;
    let name = number_name(b'A');
    set_all(alloc, memory, name, values)?;
    Ok(holds(memory, name, wanted)? && memory.bounds(name) == Some((first, second)))
}

fn first_wrong(alloc: Global) -> Result<Option<usize>, Fail> {
    for (place, row) in STORED.iter().enumerate() {
        if !stores_whole(alloc, row)? {
            return Ok(Some(place));
        }
    }
    Ok(None)
}

fn set_all(alloc: Global, memory: &mut Memory, name: Name, values: &[i16]) -> Result<(), Fail> {
    let numbers = numbers_of(alloc, values)?;
    memory.set_numbers(name, &numbers);
    Ok(())
}

/// Returns whether the array has these numbers, those with a subscript 0 included.
pub(crate) fn holds(memory: &Memory, name: Name, wanted: &[i16]) -> Result<bool, Fail> {
    Ok(are(&memory.numbers(name)?, wanted))
}

#[test]
fn elements_without_a_subscript_0_are_stored(rt: HostRuntime) -> Result<(), Fail> {
    expect_none(rt.alloc(), first_wrong(rt.alloc())?)
}

/// Returns the last two numbers of an array of two rows and three columns.
fn last_two(memory: &Memory, name: Name) -> Result<Vec<Int>, Fail> {
    match memory.bounds(name) {
        Some((1, Some(2))) => Ok(memory.numbers_from(name, 4, 2)?),
        _ => Err("other bounds".into()),
    }
}

fn expect_last_two(alloc: Global, memory: &mut Memory, name: Name) -> Result<(), Fail> {
    set_all(alloc, memory, name, &[1, 2, 3, 4, 5, 6])?;
    let is_right = are(&last_two(memory, name)?, &[5, 6]);
    expect(is_right, "other numbers")
}

#[test]
fn a_part_of_an_array_is_read(rt: HostRuntime) -> Result<(), Fail> {
    let name = number_name(b'A');
    let mut memory = memory_with(rt.alloc(), name, 1, Some(2))?;
    expect_last_two(rt.alloc(), &mut memory, name)
}

#[test]
fn an_array_that_was_not_made_has_no_bounds(rt: HostRuntime) -> Result<(), Fail> {
    let memory = Memory::new(rt.alloc());
    expect(
        memory.bounds(number_name(b'A')).is_none(),
        "bounds of no array",
    )
}
