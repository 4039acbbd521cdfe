//! Variables, arrays and calls.

use crate::expects::expect_none;
use basic_tree::{Name, Shape};
use basic_values::{Halt, Int, Stop, Text, Trouble};
use job_memory::Memory;
use record_fields::{Buffers, Part};
use std::alloc::Global;
use std::test::Fail;

pub(crate) fn number_name(letter: u8) -> Name {
    Name {
        letter,
        digit: None,
        text: false,
    }
}

pub(crate) fn text_name(letter: u8) -> Name {
    Name {
        letter,
        digit: None,
        text: true,
    }
}

/// What is done to a memory, and what is asked of it. Variables are named by their letter, and so
/// are arrays. A string is one byte, this many times.
#[derive(Clone, Copy)]
pub(crate) enum Step {
    Number(u8),
    SetNumber(u8, i16),
    SetText(u8, u8, usize),
    /// One byte this many times at the end of an own string: 1 if there was one, else 0.
    Append(u8, u8, usize),
    /// This many bytes after the first ones are kept of an own string: 1 if there was one, else 0.
    Cut(u8, usize, usize),
    /// An array of numbers with these bounds.
    Dim(u8, u16, Option<u16>),
    DimTexts(u8, u16, Option<u16>),
    NumberAt(u8, i16, Option<i16>),
    SetNumberAt(u8, i16, Option<i16>, i16),
    /// The first byte and the length of an element.
    TextAt(u8, i16, Option<i16>),
    SetTextAt(u8, i16, Option<i16>, u8, usize),
    /// A string is lent from the whole buffer of channel 1.
    Bind(u8),
    /// A string is lent from this channel's buffer, from this byte on, with this many bytes.
    Field(u8, u8, u16, u16),
    /// The channel of a fielded string, and the bytes before its part.
    Place(u8),
    /// How many bytes a string has, if each channel's buffer is one block.
    Length(u8),
    /// How many bytes an own string has.
    OwnLength(u8),
    /// A channel is closed, or all of them.
    Forget(u8),
    ForgetAll,
    /// A call with one parameter, a string.
    EnterText(u8),
    /// A call with two parameters, which are the same string.
    EnterTextTwice(u8),
    /// A call with these numbers as its parameters.
    Enter(&'static [u8]),
    Leave,
    Clear,
}

/// The answer to a step.
#[derive(Clone, Copy, PartialEq, Eq)]
pub(crate) enum Told {
    Done,
    Is(i16),
    /// The first byte and the length of a string.
    Begins(u8, usize),
    /// A channel, and how many bytes there are before the part, and in it.
    At(u8, u16, u16),
    Empty,
    /// The memory is full.
    Full,
    TooLong,
    Fault(u8),
    Other,
}

pub(crate) type Row = (Step, Told);

fn int_of(subscript: Option<i16>) -> Option<Int> {
    match subscript {
        Some(number) => Some(Int::new(number)),
        None => None,
    }
}

/// Returns a string of one byte, this many times.
pub(crate) fn text(alloc: Global, byte: u8, length: usize) -> Result<Text, Fail> {
    let bytes = vec![in alloc; byte; length]?;
    Ok(Text::of(alloc, &bytes).ok().ok_or("no text")?)
}

fn made(answer: Result<(), Trouble<Halt>>) -> Told {
    match answer {
        Ok(()) => Told::Done,
        Err(Trouble::Refused(Halt::RoomFull)) => Told::Full,
        Err(_) => Told::Other,
    }
}

pub(crate) fn stored(answer: Result<(), Stop>) -> Told {
    match answer {
        Ok(()) => Told::Done,
        Err(stop) => stopped(&stop),
    }
}

fn stopped(stop: &Stop) -> Told {
    match stop {
        Stop::Halt(Halt::RoomFull) => Told::Full,
        Stop::Fault(fault) => Told::Fault(fault.number()),
        _ => Told::Other,
    }
}

/// Returns the answer to a step.
fn told_behind(alloc: Global, memory: &mut Memory, step: Step) -> Result<Told, Fail> {
    match step {
        Step::SetText(letter, byte, length) => {
            Ok(set_text(memory, letter, text(alloc, byte, length)?))
        }
        Step::Append(letter, byte, length) => append(alloc, memory, letter, byte, length),
        Step::SetTextAt(letter, first, second, byte, length) => {
            let value = text(alloc, byte, length)?;
            Ok(set_text_at(memory, letter, first, second, value))
        }
        Step::Length(letter) => length_of(alloc, memory, letter),
        Step::Enter(letters) => enter(alloc, memory, letters),
        Step::NumberAt(..) | Step::SetNumberAt(..) | Step::TextAt(..) => Ok(element(memory, step)),
        Step::Bind(_) | Step::Field(..) | Step::Place(_) | Step::OwnLength(_) => {
            Ok(lent(memory, step))
        }
        Step::EnterText(_) | Step::EnterTextTwice(_) | Step::Leave => Ok(call(memory, step)),
        _ => Ok(variable(memory, step)),
    }
}

/// Returns the answer to a step on a whole variable, or on all of them.
fn variable(memory: &mut Memory, step: Step) -> Told {
    match step {
        Step::Number(letter) => Told::Is(memory.number(number_name(letter)).value()),
        Step::SetNumber(letter, value) => set_number(memory, letter, value),
        Step::Cut(letter, before, count) => changed(memory.cut(text_name(letter), before, count)),
        Step::Dim(letter, first, second) => dim(memory, number_name(letter), first, second),
        Step::DimTexts(letter, first, second) => dim(memory, text_name(letter), first, second),
        _ => emptied(memory, step),
    }
}

fn emptied(memory: &mut Memory, step: Step) -> Told {
    match step {
        Step::Clear => memory.clear(),
        Step::Forget(channel) => memory.forget_channel(channel),
        Step::ForgetAll => memory.forget_all(),
        _ => return Told::Other,
    }
    Told::Done
}

fn set_number(memory: &mut Memory, letter: u8, value: i16) -> Told {
    made(memory.set_number(number_name(letter), Int::new(value)))
}

fn set_text(memory: &mut Memory, letter: u8, value: Text) -> Told {
    made(memory.set_text(text_name(letter), value))
}

fn append(
    alloc: Global,
    memory: &mut Memory,
    letter: u8,
    byte: u8,
    length: usize,
) -> Result<Told, Fail> {
    let more = text(alloc, byte, length)?;
    Ok(appended(memory.append(text_name(letter), more.as_bytes())))
}

fn appended(answer: Result<bool, Trouble<Halt>>) -> Told {
    match answer {
        Ok(done) => changed(done),
        Err(Trouble::Refused(Halt::RoomFull)) => Told::Full,
        Err(Trouble::Refused(Halt::TooLong)) => Told::TooLong,
        Err(_) => Told::Other,
    }
}

fn changed(done: bool) -> Told {
    Told::Is(i16::from(done))
}

pub(crate) fn dim(memory: &mut Memory, name: Name, first: u16, second: Option<u16>) -> Told {
    made(memory.dim(Shape {
        name,
        first,
        second,
    }))
}

fn element(memory: &mut Memory, step: Step) -> Told {
    match step {
        Step::NumberAt(letter, first, second) => number_at(memory, letter, first, second),
        Step::SetNumberAt(letter, first, second, value) => {
            set_number_at(memory, letter, (first, second), value)
        }
        Step::TextAt(letter, first, second) => text_at(memory, letter, first, second),
        _ => Told::Other,
    }
}

/// Returns the answer to a store to an element.
pub(crate) fn set_number_at(
    memory: &mut Memory,
    letter: u8,
    at: (i16, Option<i16>),
    value: i16,
) -> Told {
    let (name, value) = (number_name(letter), Int::new(value));
    stored(memory.set_number_at(name, Int::new(at.0), int_of(at.1), value))
}

pub(crate) fn number_at(memory: &Memory, letter: u8, first: i16, second: Option<i16>) -> Told {
    match memory.number_at(number_name(letter), Int::new(first), int_of(second)) {
        Ok(number) => Told::Is(number.value()),
        Err(fault) => Told::Fault(fault.number()),
    }
}

fn text_at(memory: &Memory, letter: u8, first: i16, second: Option<i16>) -> Told {
    match memory.text_at(text_name(letter), Int::new(first), int_of(second)) {
        Ok([]) => Told::Empty,
        Ok(bytes) => Told::Begins(bytes[0], bytes.len()),
        Err(fault) => Told::Fault(fault.number()),
    }
}

fn set_text_at(
    memory: &mut Memory,
    letter: u8,
    first: i16,
    second: Option<i16>,
    value: Text,
) -> Told {
    stored(memory.set_text_at(text_name(letter), Int::new(first), int_of(second), value))
}

/// Returns the answer to a step on a string that is lent from a buffer.
fn lent(memory: &mut Memory, step: Step) -> Told {
    match step {
        Step::Bind(letter) => field(memory, letter, 1, 0, 512),
        Step::Field(letter, channel, offset, length) => {
            field(memory, letter, channel, offset, length)
        }
        Step::Place(letter) => place_of(memory, letter),
        Step::OwnLength(letter) => own_length(memory, letter),
        _ => Told::Other,
    }
}

fn call(memory: &mut Memory, step: Step) -> Told {
    match step {
        Step::EnterText(letter) => made(memory.enter(&[text_name(letter)])),
        Step::EnterTextTwice(letter) => {
            let name = text_name(letter);
            made(memory.enter(&[name, name]))
        }
        Step::Leave => {
            memory.leave();
            Told::Done
        }
        _ => Told::Other,
    }
}

fn field(memory: &mut Memory, letter: u8, channel: u8, offset: u16, length: u16) -> Told {
    made(memory.bind_part(text_name(letter), channel, Part { offset, length }))
}

fn place_of(memory: &Memory, letter: u8) -> Told {
    match memory.place_of(text_name(letter)) {
        Some((channel, part)) => Told::At(channel, part.offset, part.length),
        None => Told::Empty,
    }
}

fn own_length(memory: &Memory, letter: u8) -> Told {
    match memory.own_length(text_name(letter)) {
        Some(length) => i16::try_from(length).map_or(Told::Other, Told::Is),
        None => Told::Empty,
    }
}

fn length_of(alloc: Global, memory: &Memory, letter: u8) -> Result<Told, Fail> {
    let buffers = Buffers::new(alloc)?;
    let bytes = memory.text(text_name(letter), &buffers);
    Ok(match bytes.first() {
        Some(byte) => Told::Begins(*byte, bytes.len()),
        None => Told::Empty,
    })
}

fn enter(alloc: Global, memory: &mut Memory, letters: &[u8]) -> Result<Told, Fail> {
    let mut names = Vec::new(alloc);
    for letter in letters {
        names.push(number_name(*letter))?;
    }
    Ok(made(memory.enter(names.as_slice())))
}

/// Returns the place of the first row with another answer, over a new memory.
pub(crate) fn first_wrong(alloc: Global, rows: &[Row]) -> Result<Option<usize>, Fail> {
    let mut memory = Memory::new(alloc);
    first_told_wrong(alloc, &mut memory, rows)
}

/// Fails with that place.
pub(crate) fn expect_rows(alloc: Global, rows: &[Row]) -> Result<(), Fail> {
    expect_none(alloc, first_wrong(alloc, rows)?)
}

fn first_told_wrong(
    alloc: Global,
    memory: &mut Memory,
    rows: &[Row],
) -> Result<Option<usize>, Fail> {
    for (place, (step, want)) in rows.iter().enumerate() {
        if told_behind(alloc, memory, *step)? != *want {
            return Ok(Some(place));
        }
    }
    Ok(None)
}

/// The subscripts of an element, and whether a store makes an array that has it.
static SUBSCRIPTS: [(i16, Option<i16>, bool); 8] = [
    (0, None, true),
    (10, None, true),
    (11, None, false),
    (-1, None, false),
    (10, Some(10), true),
    (10, Some(11), false),
    (11, Some(0), false),
    (0, Some(-1), false),
];

/// Returns the answers for an element, for a store of 7 to it, and for it after that.
fn told_in_turn(is_inside: bool) -> [Told; 3] {
    if is_inside {
        [Told::Is(0), Told::Done, Told::Is(7)]
    } else {
        [Told::Fault(55); 3]
    }
}

fn is_stored(memory: &mut Memory, first: i16, second: Option<i16>, is_inside: bool) -> bool {
    let [before, store, behind] = told_in_turn(is_inside);
    number_at(memory, b'A', first, second) == before
        && set_number_at(memory, b'A', (first, second), 7) == store
        && number_at(memory, b'A', first, second) == behind
}

/// Returns whether there is an array with exactly as many subscripts; or none, if the element is
/// outside.
fn has_subscripts(memory: &Memory, second: Option<i16>, is_inside: bool) -> bool {
    let (origin, other) = match second {
        Some(_) => (Some(0), None),
        None => (None, Some(0)),
    };
    let wrong = Told::Fault(55);
    let has_other = number_at(memory, b'A', 0, other) != wrong;
    number_at(memory, b'A', 0, origin) != wrong && has_other == !is_inside
}

/// Returns whether a store to the element makes an array, which then has the element, and its first
/// one with exactly as many subscripts. For an element outside, returns whether the store fails and
/// leaves no array.
fn makes_an_array(alloc: Global, first: i16, second: Option<i16>, is_inside: bool) -> bool {
    let mut memory = Memory::new(alloc);
    is_stored(&mut memory, first, second, is_inside) && has_subscripts(&memory, second, is_inside)
}

fn first_wrong_subscript(alloc: Global) -> Option<usize> {
    for (place, (first, second, is_inside)) in SUBSCRIPTS.iter().enumerate() {
        if !makes_an_array(alloc, *first, *second, *is_inside) {
            return Some(place);
        }
    }
    None
}

#[test]
fn a_store_makes_an_array(rt: HostRuntime) -> Result<(), Fail> {
    expect_none(rt.alloc(), first_wrong_subscript(rt.alloc()))
}

static OWN_TEXTS: [Row; 8] = [
    (Step::OwnLength(b'A'), Told::Empty),
    (Step::SetText(b'A', b'x', 5), Told::Done),
    (Step::OwnLength(b'A'), Told::Is(5)),
    (Step::OwnLength(b'B'), Told::Empty),
    (Step::Bind(b'A'), Told::Done),
    (Step::OwnLength(b'A'), Told::Empty),
    (Step::ForgetAll, Told::Done),
    (Step::OwnLength(b'A'), Told::Is(0)),
];

#[test]
fn own_texts_have_a_length(rt: HostRuntime) -> Result<(), Fail> {
    expect_rows(rt.alloc(), &OWN_TEXTS)
}

/// Own strings are changed in place, up to their largest length and to the space that is left. A
/// fielded one, and one that is not stored, are not.
static CHANGED: [Row; 31] = [
    (Step::Append(b'A', b'x', 2), Told::Is(0)),
    (Step::Cut(b'A', 0, 1), Told::Is(0)),
    (Step::OwnLength(b'A'), Told::Empty),
    (Step::SetText(b'A', b'a', 3), Told::Done),
    (Step::SetText(b'B', b'b', 3), Told::Done),
    (Step::Append(b'A', b'x', 2), Told::Is(1)),
    (Step::Length(b'A'), Told::Begins(b'a', 5)),
    (Step::Length(b'B'), Told::Begins(b'b', 3)),
    (Step::Cut(b'A', 3, 9), Told::Is(1)),
    (Step::Length(b'A'), Told::Begins(b'x', 2)),
    (Step::Cut(b'A', 9, 1), Told::Is(1)),
    (Step::OwnLength(b'A'), Told::Is(0)),
    (Step::Append(b'A', b'y', 32767), Told::Is(1)),
    (Step::Append(b'A', b'z', 1), Told::TooLong),
    (Step::OwnLength(b'A'), Told::Is(32767)),
    (Step::Append(b'A', b'z', 0), Told::Is(1)),
    (Step::Bind(b'B'), Told::Done),
    (Step::Append(b'B', b'x', 1), Told::Is(0)),
    (Step::Cut(b'B', 0, 1), Told::Is(0)),
    (Step::Length(b'B'), Told::Begins(0, 512)),
    (Step::SetText(b'C', b'c', 32767), Told::Done),
    (Step::SetText(b'D', b'd', 32767), Told::Done),
    (Step::SetText(b'E', b'e', 32767), Told::Done),
    (Step::SetText(b'F', b'f', 32767), Told::Done),
    (Step::SetText(b'G', b'g', 32767), Told::Done),
    (Step::SetText(b'H', b'h', 32767), Told::Done),
    // 7 strings of 32,769 bytes in memory and a fielded one leave 32,759.
    (Step::SetText(b'I', b'i', 32756), Told::Done),
    (Step::Append(b'I', b'i', 2), Told::Full),
    (Step::Append(b'I', b'i', 1), Told::Is(1)),
    (Step::Cut(b'I', 1, 100), Told::Is(1)),
    (Step::Append(b'I', b'i', 2), Told::Is(1)),
];

#[test]
fn own_texts_change_in_their_place(rt: HostRuntime) -> Result<(), Fail> {
    expect_rows(rt.alloc(), &CHANGED)
}

static BOUNDS: [Row; 13] = [
    (Step::DimTexts(b'A', 2, Some(3)), Told::Done),
    (Step::SetTextAt(b'A', 0, Some(0), b'0', 1), Told::Done),
    (Step::SetTextAt(b'A', 0, Some(3), b'3', 2), Told::Done),
    (Step::SetTextAt(b'A', 1, Some(0), b'1', 3), Told::Done),
    (Step::SetTextAt(b'A', 2, Some(3), b'2', 4), Told::Done),
    (Step::TextAt(b'A', 0, Some(0)), Told::Begins(b'0', 1)),
    (Step::TextAt(b'A', 0, Some(3)), Told::Begins(b'3', 2)),
    (Step::TextAt(b'A', 1, Some(0)), Told::Begins(b'1', 3)),
    (Step::TextAt(b'A', 2, Some(3)), Told::Begins(b'2', 4)),
    (Step::TextAt(b'A', 1, Some(3)), Told::Empty),
    (Step::TextAt(b'A', 0, Some(4)), Told::Fault(55)),
    (Step::TextAt(b'A', 3, Some(0)), Told::Fault(55)),
    (Step::TextAt(b'A', 0, None), Told::Fault(55)),
];

#[test]
fn an_array_has_the_bounds_of_its_dim(rt: HostRuntime) -> Result<(), Fail> {
    expect_rows(rt.alloc(), &BOUNDS)
}

static CALLS: [Row; 18] = [
    (Step::SetNumber(b'A', 7), Told::Done),
    (Step::Enter(b"ABA"), Told::Done),
    (Step::Number(b'A'), Told::Is(0)),
    (Step::Number(b'B'), Told::Is(0)),
    (Step::SetNumber(b'A', 1), Told::Done),
    (Step::Enter(b"A"), Told::Done),
    (Step::SetNumber(b'A', 2), Told::Done),
    (Step::SetNumber(b'B', 3), Told::Done),
    (Step::Leave, Told::Done),
    (Step::Number(b'A'), Told::Is(1)),
    (Step::Number(b'B'), Told::Is(3)),
    (Step::Leave, Told::Done),
    (Step::Number(b'A'), Told::Is(7)),
    (Step::Number(b'B'), Told::Is(0)),
    (Step::Leave, Told::Done),
    (Step::Number(b'A'), Told::Is(7)),
    (Step::Clear, Told::Done),
    (Step::Number(b'A'), Told::Is(0)),
];

#[test]
fn a_call_puts_its_parameters_back(rt: HostRuntime) -> Result<(), Fail> {
    expect_rows(rt.alloc(), &CALLS)
}

/// A parameter that was fielded on a channel that is closed meanwhile comes back empty, also if
/// another string is fielded on that channel again.
static FIELDED: [Row; 27] = [
    (Step::Place(b'A'), Told::Empty),
    (Step::Field(b'A', 1, 4, 6), Told::Done),
    (Step::Field(b'B', 2, 0, 512), Told::Done),
    (Step::Field(b'C', 2, 510, 4), Told::Done),
    (Step::Place(b'A'), Told::At(1, 4, 6)),
    (Step::Length(b'A'), Told::Begins(0, 6)),
    (Step::Length(b'B'), Told::Begins(0, 512)),
    (Step::Length(b'C'), Told::Begins(0, 2)),
    (Step::EnterText(b'A'), Told::Done),
    (Step::Place(b'A'), Told::Empty),
    (Step::Field(b'A', 2, 1, 2), Told::Done),
    (Step::EnterText(b'A'), Told::Done),
    (Step::Forget(1), Told::Done),
    (Step::Field(b'A', 1, 7, 8), Told::Done),
    (Step::Leave, Told::Done),
    (Step::Place(b'A'), Told::At(2, 1, 2)),
    (Step::Leave, Told::Done),
    (Step::Place(b'A'), Told::Empty),
    (Step::Length(b'A'), Told::Empty),
    (Step::Place(b'B'), Told::At(2, 0, 512)),
    (Step::EnterText(b'B'), Told::Done),
    (Step::ForgetAll, Told::Done),
    (Step::Leave, Told::Done),
    (Step::Place(b'B'), Told::Empty),
    (Step::Length(b'C'), Told::Empty),
    (Step::SetText(b'C', b'X', 3), Told::Done),
    (Step::Length(b'C'), Told::Begins(b'X', 3)),
];

#[test]
fn a_closed_channel_empties_its_fields(rt: HostRuntime) -> Result<(), Fail> {
    expect_rows(rt.alloc(), &FIELDED)
}
