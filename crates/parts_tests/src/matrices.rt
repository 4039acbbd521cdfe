//! MAT on a memory: tables of assignments, arrays that are made when they are named, and rows that
//! are read.

use crate::arrays::{are, holds};
use crate::expects::{expect, expect_none};
use crate::memory::{Told, dim, number_at, number_name, set_number_at, stored};
use basic_matrix::{MatValue, assign, row, touch};
use basic_tree::Name;
use basic_values::{Halt, Int, Trouble};
use job_memory::Memory;
use std::alloc::Global;
use std::test::Fail;

/// 1 2 / 3 4.
const A: u8 = b'A';
/// Zeros of the same bounds.
const B: u8 = b'B';
/// 1 2 3 / 4 5 6.
const C: u8 = b'C';
/// 5, 6, of one subscript.
const D: u8 = b'D';
/// Three elements of one subscript.
const E: u8 = b'E';
/// Two rows without a column.
const F: u8 = b'F';
/// Two columns without a row.
const G: u8 = b'G';

/// The bounds of each array, and its numbers row by row.
static ARRAYS: [(u8, u16, Option<u16>, &[i16]); 7] = [
    (A, 2, Some(2), &[9, 9, 9, 9, 1, 2, 9, 3, 4]),
    (B, 2, Some(2), &[9, 9, 9, 9, 0, 0, 9, 0, 0]),
    (C, 2, Some(3), &[9, 9, 9, 9, 9, 1, 2, 3, 9, 4, 5, 6]),
    (D, 2, None, &[9, 5, 6]),
    (E, 3, None, &[9, 0, 0, 0]),
    (F, 2, Some(0), &[9, 9, 9]),
    (G, 0, Some(2), &[9, 9, 9]),
];

/// A value, with arrays by their letters, and the factor as a plain number.
#[derive(Clone, Copy)]
enum Given {
    Zero,
    One,
    Identity,
    Copy(u8),
    Sum(u8, u8),
    Difference(u8, u8),
    Product(u8, u8),
    Scaled(i16, u8),
    Transposed(u8),
}

/// A target, what is assigned to it, and its numbers then; none for error 55.
type Row = (u8, Given, &'static [i16]);

static ROWS: [Row; 36] = [
    (B, Given::Product(A, A), &[7, 10, 15, 22]),
    (A, Given::Product(A, A), &[7, 10, 15, 22]),
    (A, Given::Product(A, B), &[0, 0, 0, 0]),
    (C, Given::Product(A, C), &[9, 12, 15, 19, 26, 33]),
    (A, Given::Product(F, G), &[0, 0, 0, 0]),
    (C, Given::Product(C, A), &[]),
    (A, Given::Product(A, C), &[]),
    (A, Given::Product(A, D), &[]),
    (D, Given::Product(A, D), &[]),
    (A, Given::Transposed(A), &[1, 3, 2, 4]),
    (B, Given::Transposed(A), &[1, 3, 2, 4]),
    (B, Given::Transposed(C), &[]),
    (D, Given::Transposed(D), &[]),
    (B, Given::Sum(A, A), &[2, 4, 6, 8]),
    (A, Given::Sum(A, B), &[1, 2, 3, 4]),
    (D, Given::Sum(D, D), &[10, 12]),
    (A, Given::Sum(A, C), &[]),
    (A, Given::Sum(A, D), &[]),
    (D, Given::Sum(D, A), &[]),
    (D, Given::Sum(D, E), &[]),
    (C, Given::Sum(A, A), &[]),
    (A, Given::Difference(B, A), &[-1, -2, -3, -4]),
    (D, Given::Difference(D, D), &[0, 0]),
    (E, Given::Difference(D, D), &[]),
    (A, Given::Scaled(20000, A), &[20000, -25536, -5536, 14464]),
    (D, Given::Scaled(-1, D), &[-5, -6]),
    (C, Given::Scaled(2, A), &[]),
    (A, Given::Identity, &[1, 0, 0, 1]),
    (C, Given::Identity, &[]),
    (D, Given::Identity, &[]),
    (C, Given::One, &[1, 1, 1, 1, 1, 1]),
    (D, Given::One, &[1, 1]),
    (A, Given::Zero, &[0, 0, 0, 0]),
    (B, Given::Copy(A), &[1, 2, 3, 4]),
    (A, Given::Copy(A), &[1, 2, 3, 4]),
    (A, Given::Copy(D), &[]),
];

fn value_of(given: Given) -> MatValue {
    match given {
        Given::Zero => MatValue::Zero,
        Given::One => MatValue::One,
        Given::Identity => MatValue::Identity,
        Given::Copy(b) => MatValue::Copy(number_name(b)),
        Given::Sum(b, c) => MatValue::Sum(number_name(b), number_name(c)),
        Given::Difference(b, c) => MatValue::Difference(number_name(b), number_name(c)),
        Given::Product(b, c) => MatValue::Product(number_name(b), number_name(c)),
        Given::Scaled(n, b) => MatValue::Scaled(Int::new(n), number_name(b)),
        Given::Transposed(b) => MatValue::Transposed(number_name(b)),
    }
}

/// Stores the numbers of an array one by one.
fn store(memory: &mut Memory, letter: u8, second: Option<u16>, values: &[i16]) -> Result<(), Fail> {
    let (mut i, mut j) = (0, 0);
    for value in values {
        let last = second.map(|_| j);
        if set_number_at(memory, letter, (i, last), *value) != Told::Done {
            return Err("no element".into());
        }
        (i, j) = next_subscripts(second, i, j);
    }
    Ok(())
}

/// Returns the subscripts after these.
fn next_subscripts(second: Option<u16>, i: i16, j: i16) -> (i16, i16) {
    match second {
        Some(second) if i32::from(j) < i32::from(second) => (i, j.wrapping_add(1)),
        _ => (i.wrapping_add(1), 0),
    }
}

fn make_arrays(memory: &mut Memory) -> Result<(), Fail> {
    for (letter, first, second, values) in &ARRAYS {
        make(memory, *letter, *first, *second)?;
        store(memory, *letter, *second, values)?;
    }
    Ok(())
}

/// Makes an array of numbers.
fn make(memory: &mut Memory, letter: u8, first: u16, second: Option<u16>) -> Result<(), Fail> {
    match dim(memory, number_name(letter), first, second) {
        Told::Done => Ok(()),
        _ => Err("no array".into()),
    }
}

/// Returns the numbers of a row that exists.
fn row_of(memory: &Memory, name: Name, place: u16) -> Result<Vec<Int>, Fail> {
    match memory.bounds(name) {
        Some((first, _)) if place <= first => Ok(row(memory, name, place)?),
        _ => Err("no row".into()),
    }
}

/// Returns whether the rows of the array have these numbers.
fn rows_are(memory: &Memory, name: Name, wanted: &[i16]) -> Result<bool, Fail> {
    let mut left = wanted;
    for place in 1..=memory.bounds(name).map_or(0, |bounds| bounds.0) {
        let numbers = row_of(memory, name, place)?;
        let Some((front, rest)) = left.split_at_checked(numbers.len()) else {
            return Ok(false);
        };
        if !are(&numbers, front) {
            return Ok(false);
        }
        left = rest;
    }
    Ok(left.is_empty())
}

/// Returns whether each array but this one is as it was made.
fn others_stay(memory: &Memory, target: Name) -> Result<bool, Fail> {
    for (letter, _, _, values) in &ARRAYS {
        let name = number_name(*letter);
        if name != target && !holds(memory, name, values)? {
            return Ok(false);
        }
    }
    Ok(true)
}

/// Returns whether each number with a subscript 0 is 9, as it was stored.
fn zero_subscripts_stay(memory: &Memory, letter: u8) -> bool {
    let nine = Told::Is(9);
    if matches!(memory.bounds(number_name(letter)), Some((_, None))) {
        return number_at(memory, letter, 0, None) == nine;
    }
    number_at(memory, letter, 0, Some(1)) == nine && number_at(memory, letter, 1, Some(0)) == nine
}

/// Returns the answer to the assignment of a value to an array.
fn assigned(memory: &mut Memory, letter: u8, given: Given) -> Told {
    stored(assign(memory, number_name(letter), &value_of(given)))
}

/// Names an array, which makes it if needed.
fn named(memory: &mut Memory, letter: u8) -> Told {
    match touch(memory, number_name(letter)) {
        Ok(()) => Told::Done,
        Err(Trouble::Refused(Halt::RoomFull)) => Told::Full,
        Err(_) => Told::Other,
    }
}

/// Returns whether an assignment leaves what the row expects.
fn is_assigned(alloc: Global, letter: u8, given: Given, wanted: &[i16]) -> Result<bool, Fail> {
    let mut memory = Memory::new(alloc);
    make_arrays(&mut memory)?;
    match assigned(&mut memory, letter, given) {
        Told::Done => is_changed(&memory, letter, wanted),
        Told::Fault(55) => Ok(wanted.is_empty() && others_stay(&memory, number_name(b'Z'))?),
        _ => Ok(false),
    }
}

/// Returns whether an array has these numbers, and all else is as it was made.
fn is_changed(memory: &Memory, letter: u8, wanted: &[i16]) -> Result<bool, Fail> {
    let target = number_name(letter);
    let is_right = rows_are(memory, target, wanted)? && zero_subscripts_stay(memory, letter);
    Ok(is_right && others_stay(memory, target)?)
}

fn first_wrong_assignment(alloc: Global) -> Result<Option<usize>, Fail> {
    for (place, (target, given, wanted)) in ROWS.iter().enumerate() {
        if !is_assigned(alloc, *target, *given, wanted)? {
            return Ok(Some(place));
        }
    }
    Ok(None)
}

#[test]
fn each_value_of_mat_is_assigned_or_refused(rt: HostRuntime) -> Result<(), Fail> {
    expect_none(rt.alloc(), first_wrong_assignment(rt.alloc())?)
}

/// Returns the bounds of an array after it is named, if one with these bounds existed before.
fn bounds_behind_touch(
    alloc: Global,
    before: Option<(u16, Option<u16>)>,
) -> Result<Option<(u16, Option<u16>)>, Fail> {
    let mut memory = Memory::new(alloc);
    if let Some((first, second)) = before {
        make(&mut memory, A, first, second)?;
    }
    match named(&mut memory, A) {
        Told::Done => Ok(memory.bounds(number_name(A))),
        _ => Err("no room".into()),
    }
}

#[test]
fn an_array_that_is_named_is_made(rt: HostRuntime) -> Result<(), Fail> {
    let made = bounds_behind_touch(rt.alloc(), None)?;
    expect(made == Some((10, Some(10))), "a new array has other bounds")?;
    let kept = bounds_behind_touch(rt.alloc(), Some((3, None)))?;
    expect(
        kept == Some((3, None)),
        "an array that is there has other bounds",
    )
}

/// Returns whether there is no space for another array if one fills it.
fn is_full(alloc: Global) -> Result<bool, Fail> {
    let mut memory = Memory::new(alloc);
    make(&mut memory, B, 65535, Some(1))?;
    let is_refused = named(&mut memory, A) == Told::Full;
    Ok(is_refused && memory.bounds(number_name(A)) == None)
}

#[test]
fn an_array_without_room_is_not_made(rt: HostRuntime) -> Result<(), Fail> {
    expect(is_full(rt.alloc())?, "an array is made without room")
}

/// Returns whether an array that was just made takes CON from 1 to 10.
fn is_made_of_ones(alloc: Global) -> bool {
    let mut memory = Memory::new(alloc);
    named(&mut memory, A) == Told::Done
        && assigned(&mut memory, A, Given::One) == Told::Done
        && number_at(&memory, A, 10, Some(10)) == Told::Is(1)
        && number_at(&memory, A, 0, Some(10)) == Told::Is(0)
}

#[test]
fn an_array_that_was_just_made_is_assigned(rt: HostRuntime) -> Result<(), Fail> {
    expect(
        is_made_of_ones(rt.alloc()),
        "an array without the ones of CON",
    )
}
