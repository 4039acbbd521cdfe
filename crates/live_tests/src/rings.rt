//! Rings of key lines that are filled and emptied in one thread.

use crate::expects::expect;
use basic_values::{KeyLine, NoMemory};
use key_rings::{Bells, KeyRing, LiveKeyboard, Outcome, TypeAhead, settle};
use std::alloc::Global;
use std::sync::Wait;
use std::sync::atomic::AtomicBool;
use std::test::Fail;
use std::thread::Parker;
use terminal_runner::Keyboard;

/// How many lines are typed.
const LINES: u32 = 200;

/// Returns the line that is typed at this place.
fn line_at(alloc: Global, place: u32) -> Result<KeyLine, NoMemory> {
    KeyLine::of(alloc, &place.to_be_bytes())
}

/// Types the lines and the end of the keys, and returns whether each was typed in order.
fn type_all(alloc: Global, bells: Bells, ahead: &mut TypeAhead) -> Result<bool, NoMemory> {
    let mut in_order = true;
    for place in 0..LINES {
        in_order = ahead.type_line(line_at(alloc, place)?)? == Outcome::InOrder && in_order;
    }
    ahead.hang_up()?;
    ahead.fill(bells);
    let after_end = ahead.type_line(line_at(alloc, LINES)?)?;
    Ok(in_order && after_end == Outcome::WasOver)
}

/// Takes the lines up to the end of the keys, and returns whether they came in order.
fn take_all<R: Wait>(alloc: Global, keyboard: &mut LiveKeyboard<R>) -> Result<bool, NoMemory> {
    let mut in_order = true;
    for place in 0..LINES {
        let want = line_at(alloc, place)?;
        in_order = match keyboard.type_line(alloc)? {
            Some(line) => in_order && line.as_bytes() == want.as_bytes(),
            None => false,
        };
    }
    let ends = keyboard.type_line(alloc)?.is_none();
    Ok(ends && keyboard.type_line(alloc)?.is_none() && in_order)
}

/// Types lines into a ring, and takes them out of it.
fn type_and_take<R: Wait>(rt: &R, alloc: Global) -> Result<(), Fail> {
    let (keys_in, keys_out) = KeyRing::open(alloc)?;
    let mut ahead = TypeAhead::new(alloc, keys_in);
    let keys = Parker::new();
    let room = Parker::new();
    let lost = AtomicBool::new(false);
    let bells = Bells {
        keys: &keys,
        room: &room,
        lost: &lost,
    };
    let typed = type_all(alloc, bells, &mut ahead)?;
    expect(typed, "a line was not typed in order")?;
    let mut keyboard = LiveKeyboard::new(rt, bells, keys_out);
    let taken = take_all(alloc, &mut keyboard)?;
    expect(taken, "lines did not come in order")
}

#[test]
fn lines_come_out_in_order(rt: HostRuntime) -> Result<(), Fail> {
    type_and_take(&rt, rt.alloc())
}

#[test]
fn both_sides_are_looked_at(rt: HostRuntime) -> Result<(), Fail> {
    let alloc = rt.alloc();
    let (keys_in, keys_out) = KeyRing::open(alloc)?;
    let mut taken = keys_out;
    let mut ahead = TypeAhead::new(alloc, keys_in);
    let typed = ahead.type_line(line_at(alloc, 0)?)?;
    settle(&mut ahead, &mut taken);
    expect(typed == Outcome::InOrder, "a line was not typed in order")
}

/// Types at a ring that nobody empties, and returns how many lines were typed before the hang-up.
fn typed_before_hang_up(alloc: Global, ahead: &mut TypeAhead) -> Result<u32, NoMemory> {
    for place in 0..100_000u32 {
        if ahead.type_line(line_at(alloc, place)?)? != Outcome::InOrder {
            return Ok(place);
        }
    }
    Ok(100_000)
}

#[test]
fn a_terminal_that_types_too_far_ahead_is_hung_up(rt: HostRuntime) -> Result<(), Fail> {
    let alloc = rt.alloc();
    let (keys_in, _keys_out) = KeyRing::open(alloc)?;
    let mut ahead = TypeAhead::new(alloc, keys_in);
    let typed = typed_before_hang_up(alloc, &mut ahead)?;
    // 1,048,576 bytes, of which each line of 4 bytes counts for 28.
    expect(
        typed == 37_449,
        "it was hung up after another number of lines",
    )
}
