//! Variables: each is found by its letter, its digit and its kind.

use crate::expects::expect;
use crate::memory::text;
use basic_tree::Name;
use basic_values::Int;
use job_memory::Memory;
use record_fields::Buffers;
use std::alloc::Global;
use std::test::Fail;

/// A letter, perhaps a digit, and whether it is a string.
type Spelling = (u8, Option<u8>, bool);

fn named(spelling: Spelling) -> Name {
    let (letter, digit, text) = spelling;
    Name {
        letter,
        digit,
        text,
    }
}

/// The first and the last name of each kind, some with a digit, and both kinds of one letter.
static STORED: [Spelling; 13] = [
    (b'Z', Some(b'9'), true),
    (b'A', None, false),
    (b'M', Some(b'5'), false),
    (b'A', Some(b'0'), true),
    (b'Z', Some(b'9'), false),
    (b'A', None, true),
    (b'A', Some(b'9'), false),
    (b'Z', None, false),
    (b'M', Some(b'5'), true),
    (b'A', Some(b'0'), false),
    (b'Z', None, true),
    (b'B', None, false),
    (b'A', Some(b'9'), true),
];

static NEVER_STORED: [Spelling; 8] = [
    (b'B', None, true),
    (b'A', Some(b'1'), false),
    (b'A', Some(b'8'), true),
    (b'M', None, false),
    (b'M', Some(b'4'), true),
    (b'Y', Some(b'9'), false),
    (b'Z', Some(b'0'), false),
    (b'Z', Some(b'8'), true),
];

/// Stores a number, or a string of this many bytes.
fn stores(alloc: Global, memory: &mut Memory, name: Name, count: u8) -> Result<bool, Fail> {
    if name.text {
        let value = text(alloc, b'X', usize::from(count))?;
        return Ok(memory.set_text(name, value).is_ok());
    }
    Ok(memory.set_number(name, Int::new(i16::from(count))).is_ok())
}

/// Returns whether a variable is that number, or a string of this many bytes.
fn is(memory: &Memory, buffers: &Buffers, name: Name, count: u8) -> bool {
    if name.text {
        memory.text(name, buffers).len() == usize::from(count)
    } else {
        memory.number(name).value() == i16::from(count)
    }
}

/// Returns what is stored under the name at a place.
fn count_of(place: usize) -> u8 {
    u8::try_from(place % 100).unwrap_or(0) + 1
}

/// Stores under each name, from the last one on or from the first.
fn store_all(alloc: Global, memory: &mut Memory, from_last: bool) -> Result<(), Fail> {
    for step in 0..STORED.len() {
        let place = if from_last {
            STORED.len() - 1 - step
        } else {
            step
        };
        let is_stored = stores(alloc, memory, named(STORED[place]), count_of(place))?;
        expect(is_stored, "not stored")?;
    }
    Ok(())
}

/// Returns whether each name has what was stored under it.
fn has_all(memory: &Memory, buffers: &Buffers) -> bool {
    STORED.iter().enumerate().all(|(place, name)| is(
        memory,
        buffers,
        named(*name),
        count_of(place),
    ))
}

/// Returns whether nothing is stored under the names that were never stored to.
fn has_no_other(memory: &Memory, buffers: &Buffers) -> bool {
    NEVER_STORED
        .iter()
        .all(|name| is(memory, buffers, named(*name), 0))
}

/// Fails unless each name has what was stored under it, and no other name has anything.
fn expect_own_values(memory: &Memory, buffers: &Buffers) -> Result<(), Fail> {
    expect(has_all(memory, buffers), "a name has another value")?;
    expect(
        has_no_other(memory, buffers),
        "a name has a value that was not stored",
    )
}

fn expect_stored(alloc: Global, buffers: &Buffers, from_last: bool) -> Result<(), Fail> {
    let mut memory = Memory::new(alloc);
    store_all(alloc, &mut memory, from_last)?;
    expect_own_values(&memory, buffers)
}

#[test]
fn each_variable_has_its_own_value(rt: HostRuntime) -> Result<(), Fail> {
    let buffers = Buffers::new(rt.alloc())?;
    expect_stored(rt.alloc(), &buffers, false)?;
    expect_stored(rt.alloc(), &buffers, true)
}
