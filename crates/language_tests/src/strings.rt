//! The string functions.

use crate::expects::{expect, expect_row};
use basic_strings::{
    Cut, abs, ascii, chr, digits, instr, item_number, left, left_cut, len, mid, mid_cut, num, num1,
    number_of, right, right_cut, sgn, space, string, text_of, val, xlate,
};
use basic_values::{Fault, Halt, Int, Text, Trouble};
use std::alloc::Global;
use std::test::Fail;

/// A function that gives a string, with its arguments.
#[derive(Clone, Copy)]
enum Made<'a> {
    Left(&'a [u8], i16),
    Right(&'a [u8], i16),
    Mid(&'a [u8], i16, i16),
    Num1(i16),
    Num(i16),
    /// The two bytes of a number.
    Pair(i16),
    Chr(i16),
    Space(i16),
    /// A byte, this many times.
    Repeated(i16, i16),
    Xlate(&'a [u8], &'a [u8]),
}

use Made::{Chr, Left, Mid, Num, Num1, Pair, Repeated, Right, Space, Xlate};

type Answer = Result<Text, Trouble<Halt>>;

fn called(alloc: Global, call: Made<'_>) -> Answer {
    match call {
        Left(text, n) => left(alloc, text, Int::new(n)),
        Right(text, n) => right(alloc, text, Int::new(n)),
        Mid(text, n, m) => mid(alloc, text, Int::new(n), Int::new(m)),
        Num1(n) => num1(alloc, Int::new(n)),
        Num(n) => num(alloc, Int::new(n)),
        Pair(n) => text_of(alloc, Int::new(n)),
        Chr(n) => chr(alloc, Int::new(n)),
        Space(n) => space(alloc, Int::new(n)),
        Repeated(n, byte) => string(alloc, Int::new(n), Int::new(byte)),
        Xlate(text, table) => xlate(alloc, text, table),
    }
}

/// Returns whether a call gives this string.
fn gives(alloc: Global, call: Made<'_>, bytes: &[u8]) -> bool {
    match called(alloc, call) {
        Ok(text) => text.as_bytes() == bytes,
        Err(_) => false,
    }
}

fn is_too_long(alloc: Global, call: Made<'_>) -> bool {
    matches!(called(alloc, call), Err(Trouble::Refused(Halt::TooLong)))
}

/// A call, and the string that it gives.
type Row = (Made<'static>, &'static [u8]);

/// Fails with the first call that gives another string.
fn expect_given(alloc: Global, table: &str, rows: &[Row]) -> Result<(), Fail> {
    for place in 0..rows.len() {
        let (call, bytes) = rows[place];
        expect_row(table, place, gives(alloc, call, bytes))?;
    }
    Ok(())
}

/// Returns the string of which a call takes a part, and that part.
fn cut_by(call: Made<'_>) -> Option<(&[u8], Cut)> {
    match call {
        Left(text, n) => Some((text, left_cut(Int::new(n)))),
        Right(text, n) => Some((text, right_cut(Int::new(n)))),
        Mid(text, n, m) => Some((text, mid_cut(Int::new(n), Int::new(m)))),
        _ => None,
    }
}

/// Returns whether a string that is cut in place is then what the call gives.
fn leaves(alloc: Global, call: Made<'_>, bytes: &[u8]) -> bool {
    let Some((whole, part)) = cut_by(call) else {
        return false;
    };
    let Ok(mut text) = Text::of(alloc, whole) else {
        return false;
    };
    text.cut(part.before, part.count);
    text.as_bytes() == bytes
}

/// Fails with the first call whose string is cut to another one.
fn expect_cut(alloc: Global, rows: &[Row]) -> Result<(), Fail> {
    for place in 0..rows.len() {
        let (call, bytes) = rows[place];
        expect_row("the cuts", place, leaves(alloc, call, bytes))?;
    }
    Ok(())
}

const LOW: i16 = -32768;

static PARTS: [Row; 46] = [
    (Left(b"ABCDE", 2), b"AB"),
    (Left(b"ABCDE", 4), b"ABCD"),
    (Left(b"ABCDE", 5), b"ABCDE"),
    (Left(b"ABCDE", 6), b"ABCDE"),
    (Left(b"ABCDE", 1), b"A"),
    (Left(b"ABCDE", 0), b""),
    (Left(b"ABCDE", -1), b""),
    (Left(b"ABCDE", LOW), b""),
    (Left(b"ABCDE", 32767), b"ABCDE"),
    (Right(b"ABCDE", 2), b"BCDE"),
    (Right(b"ABCDE", 4), b"DE"),
    (Right(b"ABCDE", 5), b"E"),
    (Right(b"ABCDE", 6), b""),
    (Right(b"ABCDE", 1), b"ABCDE"),
    (Right(b"ABCDE", 0), b"ABCDE"),
    (Right(b"ABCDE", -1), b"ABCDE"),
    (Right(b"ABCDE", LOW), b"ABCDE"),
    (Right(b"ABCDE", 32767), b""),
    (Mid(b"ABCDE", 2, 2), b"BC"),
    (Mid(b"ABCDE", 4, 4), b"DE"),
    (Mid(b"ABCDE", 5, 5), b"E"),
    (Mid(b"ABCDE", 6, 6), b""),
    (Mid(b"ABCDE", 1, 1), b"A"),
    (Mid(b"ABCDE", 0, 0), b""),
    (Mid(b"ABCDE", -1, -1), b""),
    (Mid(b"ABCDE", LOW, LOW), b""),
    (Mid(b"ABCDE", 32767, 32767), b""),
    (Mid(b"ABCDE", 2, 3), b"BCD"),
    (Left(b"", 2), b""),
    (Left(b"", 4), b""),
    (Left(b"", 5), b""),
    (Left(b"", 6), b""),
    (Left(b"", 1), b""),
    (Left(b"", 0), b""),
    (Left(b"", -1), b""),
    (Left(b"", LOW), b""),
    (Left(b"", 32767), b""),
    (Right(b"", 2), b""),
    (Right(b"", 4), b""),
    (Right(b"", 5), b""),
    (Right(b"", 6), b""),
    (Right(b"", 1), b""),
    (Right(b"", 0), b""),
    (Right(b"", -1), b""),
    (Right(b"", LOW), b""),
    (Right(b"", 32767), b""),
];

fn parts() -> &'static [Row] {
    &PARTS
}

/// Checks the parts as new strings, and cut in place.
#[test]
fn parts_by_length_and_place(rt: HostRuntime) -> Result<(), Fail> {
    let rows = parts();
    expect_given(rt.alloc(), "the parts", rows)?;
    expect_cut(rt.alloc(), rows)
}

/// The place from which on a string is searched, the string, what is sought, and its place.
static PLACES: [(i16, &[u8], &[u8], i16); 14] = [
    (1, b"ABCABC", b"BC", 2),
    (2, b"ABCABC", b"BC", 2),
    (3, b"ABCABC", b"BC", 5),
    (6, b"ABCABC", b"BC", 0),
    (-5, b"ABCABC", b"A", 1),
    (0, b"ABCABC", b"ABCABC", 1),
    (1, b"ABCABC", b"ABCABCA", 0),
    (1, b"", b"", 1),
    (2, b"", b"", 0),
    (1, b"", b"A", 0),
    (7, b"ABCABC", b"", 7),
    (8, b"ABCABC", b"", 0),
    (LOW, b"ABCABC", b"", 1),
    (32767, b"ABCABC", b"C", 0),
];

/// Returns the place of a short string in another.
fn place_in(from: i16, a: &[u8], b: &[u8]) -> Option<i16> {
    if a.len() > 9 || b.len() > 9 {
        return None;
    }
    Some(instr(Int::new(from), a, b).value())
}

#[test]
fn places_of_texts(_rt: HostRuntime) -> Result<(), Fail> {
    let rows = &PLACES;
    for place in 0..rows.len() {
        let (from, a, b, found) = rows[place];
        expect_row("the places", place, place_in(from, a, b) == Some(found))?;
    }
    Ok(())
}

static NUMBERS: [Row; 15] = [
    (Num1(0), b"0"),
    (Num1(258), b"258"),
    (Num1(-1), b"-1"),
    (Num1(32767), b"32767"),
    (Num1(LOW), b"-32768"),
    (Num(0), b" 0 "),
    (Num(258), b" 258 "),
    (Num(-1), b"-1 "),
    (Num(32767), b" 32767 "),
    (Num(LOW), b"-32768 "),
    (Pair(0), &[0, 0]),
    (Pair(258), &[1, 2]),
    (Pair(-1), &[255, 255]),
    (Pair(32767), &[127, 255]),
    (Pair(LOW), &[128, 0]),
];

fn numbers() -> &'static [Row] {
    &NUMBERS
}

/// A number in its shortest form, as it is printed and as two bytes, its absolute value and its
/// sign.
type Back = (i16, &'static [u8], &'static [u8], [u8; 2], i16, i16);

static BACK: [Back; 5] = [
    (0, b"0", b" 0 ", [0, 0], 0, 0),
    (258, b"258", b" 258 ", [1, 2], 258, 1),
    (-1, b"-1", b"-1 ", [255, 255], 1, -1),
    (32767, b"32767", b" 32767 ", [127, 255], 32767, 1),
    (LOW, b"-32768", b"-32768 ", [128, 0], LOW, -1),
];

/// Returns whether the strings of a number are read as that number.
fn gives_back(row: &Back) -> bool {
    let found = (value(row.1), value(row.2), item(row.1));
    found == (Ok(row.0), Ok(row.0), Ok(row.0)) && number_of(&row.3).value() == row.0
}

/// Returns whether a number has these digits, this absolute value and this sign.
fn has_size(row: &Back) -> bool {
    let number = Int::new(row.0);
    let has_digits = digits(number).as_slice() == row.1;
    has_digits && abs(number).value() == row.4 && sgn(number).value() == row.5
}

fn expect_back(rows: &[Back]) -> Result<(), Fail> {
    for place in 0..rows.len() {
        let row = &rows[place];
        expect_row("the ways back", place, gives_back(row) && has_size(row))?;
    }
    Ok(())
}

/// Bytes, and the number that they give.
type Numbered = (&'static [u8], i16);

/// Strings that do not have two bytes, and their number.
static OTHER_PAIRS: [Numbered; 3] = [(b"", 0), (b"\x01", 256), (b"\x01\x02\x03", 258)];

fn expect_pairs(rows: &[Numbered]) -> Result<(), Fail> {
    for place in 0..rows.len() {
        let (bytes, number) = rows[place];
        expect_row("the other pairs", place, number_of(bytes).value() == number)?;
    }
    Ok(())
}

#[test]
fn numbers_as_texts_and_back(rt: HostRuntime) -> Result<(), Fail> {
    expect_given(rt.alloc(), "the numbers", numbers())?;
    expect_back(&BACK)?;
    expect_pairs(&OTHER_PAIRS)
}

/// A number, or the number of the error.
type Value = Result<i16, u8>;

fn value_of(answer: Result<Int, Fault>) -> Value {
    match answer {
        Ok(number) => Ok(number.value()),
        Err(fault) => Err(fault.number()),
    }
}

/// Returns what VAL makes of a string.
fn value(bytes: &[u8]) -> Value {
    value_of(val(bytes))
}

/// Returns what READ and INPUT make of it.
fn item(bytes: &[u8]) -> Value {
    value_of(item_number(bytes))
}

/// A string, what VAL makes of it, and what READ and INPUT do.
type Spelled = (&'static [u8], Value, Value);

static SPELLED: [Spelled; 21] = [
    (b"12", Ok(12), Ok(12)),
    (b"+12", Ok(12), Ok(12)),
    (b"-0", Ok(0), Ok(0)),
    (b"00000000000000000012", Ok(12), Ok(12)),
    (b"-32768", Ok(LOW), Ok(LOW)),
    (b"32768", Err(51), Err(51)),
    (b"-32769", Err(51), Err(51)),
    (b"99999999999999999999", Err(51), Err(51)),
    (b"12%", Err(52), Ok(12)),
    (b"12%%", Err(52), Err(50)),
    (b" \t12 \t", Ok(12), Err(50)),
    (b"1 2", Err(52), Err(50)),
    (b"- 1", Err(52), Err(50)),
    (b"1-", Err(52), Err(50)),
    (b"--1", Err(52), Err(50)),
    (b"+", Err(52), Err(50)),
    (b"%", Err(52), Err(50)),
    (b"", Err(52), Err(50)),
    (b"  ", Err(52), Err(50)),
    (b"1.5", Err(52), Err(50)),
    (b"99999999999999999999X", Err(52), Err(50)),
];

fn spelled() -> &'static [Spelled] {
    &SPELLED
}

#[test]
fn texts_that_spell_numbers(_rt: HostRuntime) -> Result<(), Fail> {
    let rows = spelled();
    for place in 0..rows.len() {
        let (bytes, as_value, as_item) = rows[place];
        let is_so = value(bytes) == as_value && item(bytes) == as_item;
        expect_row("the texts", place, is_so)?;
    }
    Ok(())
}

static BYTES: [Row; 28] = [
    (Chr(65), &[65]),
    (Chr(0), &[0]),
    (Chr(256), &[0]),
    (Chr(255), &[255]),
    (Chr(-1), &[255]),
    (Chr(LOW), &[0]),
    (Chr(32767), &[255]),
    (Repeated(2, 65), &[65, 65]),
    (Repeated(2, 0), &[0, 0]),
    (Repeated(2, 256), &[0, 0]),
    (Repeated(2, 255), &[255, 255]),
    (Repeated(2, -1), &[255, 255]),
    (Repeated(2, LOW), &[0, 0]),
    (Repeated(2, 32767), &[255, 255]),
    (Space(3), b"   "),
    (Space(0), b""),
    (Space(-1), b""),
    (Space(LOW), b""),
    (Repeated(3, 32), b"   "),
    (Repeated(0, 32), b""),
    (Repeated(-1, 32), b""),
    (Repeated(LOW, 32), b""),
    (Xlate(b"", b"\x00X\x00Y"), b""),
    (Xlate(b"\x01\x03\x01", b"\x00X\x00Y"), b"XYX"),
    (Xlate(b"\x00\x01\x02\x04\xff", b"\x00X\x00Y"), b"X"),
    (Xlate(b"", b""), b""),
    (Xlate(b"\x01\x03\x01", b""), b""),
    (Xlate(b"\x00\x01\x02\x04\xff", b""), b""),
];

fn rows_of_bytes() -> &'static [Row] {
    &BYTES
}

/// A string, and the code of its first byte.
static FIRSTS: [Numbered; 3] = [(b"", 0), (b"A", 65), (b"\xffA", 255)];

fn expect_firsts(rows: &[Numbered]) -> Result<(), Fail> {
    for place in 0..rows.len() {
        let (bytes, first) = rows[place];
        expect_row("the first bytes", place, ascii(bytes).value() == first)?;
    }
    Ok(())
}

#[test]
fn bytes_once_and_many_times(rt: HostRuntime) -> Result<(), Fail> {
    expect_given(rt.alloc(), "the bytes", rows_of_bytes())?;
    expect_firsts(&FIRSTS)
}

/// Returns whether a string of this many letters A is returned whole by each function that can do
/// so.
fn gives_whole(alloc: Global, text: &[u8], count: i16) -> bool {
    let translated = if count > 65 { text } else { b"" };
    gives(alloc, Left(text, count), text)
        && gives(alloc, Right(text, 1), text)
        && gives(alloc, Mid(text, 1, count), text)
        && gives(alloc, Repeated(count, 65), text)
        && gives(alloc, Xlate(text, text), translated)
}

/// Returns the length of a string, and the place of the empty string at its end.
fn length_and_end(text: &[u8], count: i16) -> Option<(i16, i16)> {
    if text.len() > 32767 {
        return None;
    }
    let end = instr(Int::new(count), text, b"").value();
    Some((len(text).value(), end))
}

/// Returns the same for the functions that give its length, its end, and as many spaces.
fn is_whole(alloc: Global, text: &[u8], spaces: &[u8], count: i16) -> bool {
    let end = if count == 0 { 1 } else { count };
    gives_whole(alloc, text, count)
        && gives(alloc, Space(count), spaces)
        && length_and_end(text, count) == Some((count, end))
}

/// Returns whether 32,768 bytes are no string, but can be cut to one.
fn is_beyond(alloc: Global, text: &[u8]) -> bool {
    is_too_long(alloc, Right(text, 1))
        && is_too_long(alloc, Xlate(text, text))
        && gives(alloc, Right(text, 32767), b"AA")
}

/// Lengths of strings, and the same as numbers of the language.
static LENGTHS: [(usize, i16); 4] = [(0, 0), (1, 1), (32766, 32766), (32767, 32767)];

/// Returns whether the first `length` letters, and as many spaces, are whole strings.
fn are_whole(alloc: Global, letters: &[u8], spaces: &[u8], length: usize, count: i16) -> bool {
    if length > letters.len() || length > spaces.len() {
        return false;
    }
    is_whole(alloc, &letters[..length], &spaces[..length], count)
}

fn expect_whole(alloc: Global, letters: &[u8], spaces: &[u8]) -> Result<(), Fail> {
    for (length, count) in &LENGTHS {
        let is_so = are_whole(alloc, letters, spaces, *length, *count);
        expect_row("the lengths", *length, is_so)?;
    }
    Ok(())
}

/// Fails unless all lengths are right, with 32,768 letters and as many spaces.
fn expect_lengths(alloc: Global, letters: &[u8]) -> Result<(), Fail> {
    let spaces = vec![in alloc; b' '; 32768]?;
    expect_whole(alloc, letters, spaces.as_slice())
}

#[test]
fn texts_of_every_length(rt: HostRuntime) -> Result<(), Fail> {
    let letters = vec![in rt.alloc(); b'A'; 32768]?;
    expect_lengths(rt.alloc(), letters.as_slice())?;
    expect(
        is_beyond(rt.alloc(), letters.as_slice()),
        "a text of 32,768 bytes",
    )
}
