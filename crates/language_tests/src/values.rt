//! Integers, strings, failures, and numbers in a string.

use crate::expects::{expect, expect_bytes, expect_row};
use basic_values::{
    Fault, Halt, Int, KeyLine, Series, Text, Trouble, blanks_at_end, blanks_in_front, compare,
    concat, digits_in_front, identical, letters_in_front, number_between, without_end_blanks,
    without_front_blanks,
};
use std::alloc::Global;
use std::cmp::Ordering;
use std::test::Fail;

/// Two numbers, their sum, and how it is printed.
static SUMS: [(i16, i16, i16, &[u8]); 4] = [
    (2, 3, 5, b" 5 "),
    (32767, 1, -32768, b"-32768 "),
    (-7, 7, 0, b" 0 "),
    (-32768, -1, 32767, b" 32767 "),
];

fn has_sum(a: i16, b: i16, sum: i16, text: &[u8]) -> bool {
    let result = Int::new(a).add(Int::new(b));
    result.value() == sum && result.printed().as_slice() == text
}

#[test]
fn sums_wrap_and_are_printed(_rt: HostRuntime) -> Result<(), Fail> {
    let rows = &SUMS;
    for place in 0..rows.len() {
        let (a, b, sum, text) = rows[place];
        expect_row("the sums", place, has_sum(a, b, sum, text))?;
    }
    Ok(())
}

const LOW: i16 = -32768;

const HIGH: i16 = 32767;

/// An operator of two numbers.
#[derive(Clone, Copy)]
enum Operator {
    Minus,
    Times,
    Divided,
    Power,
    And,
    Or,
    Xor,
    Eqv,
    Imp,
}

use Operator::{And, Divided, Eqv, Imp, Minus, Or, Power, Times, Xor};

/// Returns the value of an operation, or `None` for a division by 0.
fn value_of(operator: Operator, a: i16, b: i16) -> Option<i16> {
    let (left, right) = (Int::new(a), Int::new(b));
    match operator {
        Minus => Some(left.sub(right).value()),
        Times => Some(left.mul(right).value()),
        Divided => quotient(left, right),
        Power => Some(left.power(right).value()),
        And => Some(left.and(right).value()),
        Or => Some(left.or(right).value()),
        Xor => Some(left.xor(right).value()),
        Eqv => Some(left.eqv(right).value()),
        Imp => Some(left.imp(right).value()),
    }
}

fn quotient(left: Int, right: Int) -> Option<i16> {
    match left.div(right) {
        Ok(number) => Some(number.value()),
        Err(_) => None,
    }
}

/// An operator, two numbers, and the value.
type Operation = (Operator, i16, i16, Option<i16>);

static OPERATIONS: [Operation; 66] = [
    (Minus, HIGH, 2, Some(32765)),
    (Minus, LOW, -1, Some(-32767)),
    (Minus, LOW, LOW, Some(0)),
    (Minus, -3, 3, Some(-6)),
    (Minus, -1, -1, Some(0)),
    (Minus, -1, LOW, Some(32767)),
    (Minus, 2, -1, Some(3)),
    (Minus, 0, -1, Some(1)),
    (Minus, 0, 0, Some(0)),
    (Minus, 2, 15, Some(-13)),
    (Minus, 2, 16, Some(-14)),
    (Times, HIGH, 2, Some(-2)),
    (Times, LOW, -1, Some(LOW)),
    (Times, LOW, LOW, Some(0)),
    (Times, -3, 3, Some(-9)),
    (Times, -1, -1, Some(1)),
    (Times, -1, LOW, Some(LOW)),
    (Times, 2, -1, Some(-2)),
    (Times, 0, -1, Some(0)),
    (Times, 0, 0, Some(0)),
    (Times, 2, 15, Some(30)),
    (Times, 2, 16, Some(32)),
    (Power, HIGH, 2, Some(1)),
    (Power, LOW, -1, Some(0)),
    (Power, LOW, LOW, Some(0)),
    (Power, -3, 3, Some(-27)),
    (Power, -1, -1, Some(-1)),
    (Power, -1, LOW, Some(1)),
    (Power, 2, -1, Some(0)),
    (Power, 0, -1, Some(0)),
    (Power, 0, 0, Some(1)),
    (Power, 2, 15, Some(LOW)),
    (Power, 2, 16, Some(0)),
    (And, HIGH, 2, Some(2)),
    (And, LOW, -1, Some(LOW)),
    (And, LOW, LOW, Some(LOW)),
    (And, -3, 3, Some(1)),
    (And, -1, -1, Some(-1)),
    (And, -1, LOW, Some(LOW)),
    (And, 2, -1, Some(2)),
    (And, 0, -1, Some(0)),
    (And, 0, 0, Some(0)),
    (And, 2, 15, Some(2)),
    (And, 2, 16, Some(0)),
    (Divided, -7, 2, Some(-3)),
    (Divided, 7, -2, Some(-3)),
    (Divided, -7, -2, Some(3)),
    (Divided, LOW, -1, Some(LOW)),
    (Divided, LOW, 2, Some(-16384)),
    (Divided, LOW, 0, None),
    (Or, 3, 5, Some(7)),
    (Or, 0, -1, Some(-1)),
    (Or, -1, 0, Some(-1)),
    (Or, LOW, HIGH, Some(-1)),
    (Xor, 3, 5, Some(6)),
    (Xor, 0, -1, Some(-1)),
    (Xor, -1, 0, Some(-1)),
    (Xor, LOW, HIGH, Some(-1)),
    (Eqv, 3, 5, Some(-7)),
    (Eqv, 0, -1, Some(0)),
    (Eqv, -1, 0, Some(0)),
    (Eqv, LOW, HIGH, Some(0)),
    (Imp, 3, 5, Some(-3)),
    (Imp, 0, -1, Some(-1)),
    (Imp, -1, 0, Some(0)),
    (Imp, LOW, HIGH, Some(HIGH)),
];

fn operations() -> &'static [Operation] {
    &OPERATIONS
}

fn expect_operations(rows: &[Operation]) -> Result<(), Fail> {
    for place in 0..rows.len() {
        let (operator, a, b, value) = rows[place];
        expect_row("the operations", place, value_of(operator, a, b) == value)?;
    }
    Ok(())
}

/// A number, and what NEG, NOT and SWAP make of it.
static TURNED: [(i16, i16, i16, i16); 5] = [
    (258, -258, -259, 513),
    (0, 0, -1, 0),
    (LOW, LOW, HIGH, 128),
    (HIGH, -32767, LOW, -129),
    (-2, 2, 1, -257),
];

fn is_turned(row: (i16, i16, i16, i16)) -> bool {
    let number = Int::new(row.0);
    let turned = (
        number.neg().value(),
        number.not().value(),
        number.swap().value(),
    );
    turned == (row.1, row.2, row.3)
}

fn expect_turns(rows: &[(i16, i16, i16, i16)]) -> Result<(), Fail> {
    for place in 0..rows.len() {
        expect_row("the turned numbers", place, is_turned(rows[place]))?;
    }
    Ok(())
}

/// Returns whether a division by 0 fails with its own error.
fn is_refused_at_zero() -> bool {
    match Int::new(LOW).div(Int::new(0)) {
        Ok(_) => false,
        Err(fault) => fault == Fault::new(61),
    }
}

#[test]
fn operators_at_the_ends_of_their_range(_rt: HostRuntime) -> Result<(), Fail> {
    expect_operations(operations())?;
    expect_turns(&TURNED)?;
    expect(is_refused_at_zero(), "a division by 0")
}

/// Two strings, their order, and whether they are the same to the last byte.
static COMPARED: [(&[u8], &[u8], Ordering, bool); 7] = [
    (b"AB", b"AB  ", Ordering::Equal, false),
    (b"AB", b"AB", Ordering::Equal, true),
    (b"", b"   ", Ordering::Equal, false),
    (b"", b"\x1f", Ordering::Greater, false),
    (b"AB", b"AB\x00", Ordering::Greater, false),
    (b"AB", b"AB!", Ordering::Less, false),
    (b"B", b"AB", Ordering::Greater, false),
];

fn is_order(a: &[u8], b: &[u8], order: Ordering, same: bool) -> bool {
    compare(a, b) == order && compare(b, a) == order.reverse() && identical(a, b) == same
}

#[test]
fn texts_are_compared(_rt: HostRuntime) -> Result<(), Fail> {
    let rows = &COMPARED;
    for place in 0..rows.len() {
        let (a, b, order, same) = rows[place];
        expect_row("the texts", place, is_order(a, b, order, same))?;
    }
    Ok(())
}

/// The lengths of two strings, and that of both concatenated; `None` if it is too long.
type Lengths = (usize, usize, Option<usize>);

static LENGTHS: [Lengths; 8] = [
    (0, 0, Some(0)),
    (1, 0, Some(1)),
    (1, 32765, Some(32766)),
    (1, 32766, Some(32767)),
    (32767, 0, Some(32767)),
    (32767, 1, None),
    (0, 32768, None),
    (32768, 0, None),
];

/// Returns whether two concatenated strings have that length, or are rejected as too long.
fn is_as_long(alloc: Global, a: &[u8], b: &[u8], length: Option<usize>) -> bool {
    match concat(alloc, a, b) {
        Ok(text) => length == Some(text.as_bytes().len()),
        Err(Trouble::Refused(Halt::TooLong)) => length == None,
        Err(_) => false,
    }
}

/// Returns the same if the second is appended to the first in place. If that fails, the first must
/// be as it was.
fn grows_as_long(text: &mut Text, first: usize, b: &[u8], length: Option<usize>) -> bool {
    match text.append(b) {
        Ok(()) => length == Some(text.as_bytes().len()),
        Err(Trouble::Refused(Halt::TooLong)) => length == None && text.as_bytes().len() == first,
        Err(_) => false,
    }
}

/// Returns the same if the first is no string by itself, and then no string results.
fn is_as_long_in_place(alloc: Global, a: &[u8], b: &[u8], length: Option<usize>) -> bool {
    match Text::of(alloc, a) {
        Ok(mut text) => grows_as_long(&mut text, a.len(), b, length),
        Err(_) => length == None,
    }
}

/// Returns whether two strings of spaces have that length when concatenated, in either order.
fn have_length(alloc: Global, spaces: &[u8], row: &Lengths) -> bool {
    if row.0 > spaces.len() || row.1 > spaces.len() {
        return false;
    }
    let (a, b) = (&spaces[..row.0], &spaces[..row.1]);
    is_as_long(alloc, a, b, row.2) && is_as_long_in_place(alloc, a, b, row.2)
}

fn expect_lengths(alloc: Global, spaces: &[u8], rows: &[Lengths]) -> Result<(), Fail> {
    for place in 0..rows.len() {
        expect_row(
            "the lengths",
            place,
            have_length(alloc, spaces, &rows[place]),
        )?;
    }
    Ok(())
}

/// Fails unless a string has the bytes that it is made of.
fn expect_text(alloc: Global, bytes: &[u8]) -> Result<(), Fail> {
    match Text::of(alloc, bytes) {
        Ok(text) => expect_bytes(text.as_bytes(), bytes),
        Err(_) => Err(Fail::new("no text")),
    }
}

#[test]
fn texts_end_at_their_greatest_length(rt: HostRuntime) -> Result<(), Fail> {
    let spaces = vec![in rt.alloc(); b' '; 32768]?;
    expect_lengths(rt.alloc(), spaces.as_slice(), &LENGTHS)?;
    expect_text(rt.alloc(), b"AB")
}

/// The number of an error, and its message.
static FAULTS: [(u8, &[u8]); 10] = [
    (0, b""),
    (1, b""),
    (2, b"Illegal file name"),
    (5, b"Can't find file or account"),
    (18, b"Illegal SYS() usage"),
    (52, b"Illegal number"),
    (61, b"Division by 0"),
    (63, b"FIELD overflows buffer"),
    (64, b""),
    (255, b""),
];

/// A halt, and its message.
static HALTS: [(Halt, &[u8]); 5] = [
    (Halt::NoGosub, b"RETURN without GOSUB"),
    (Halt::TooDeep, b"Nested too deep"),
    (Halt::RoomFull, b"Maximum memory exceeded"),
    (Halt::NoError, b"RESUME and no error"),
    (Halt::TooLong, b"String too long"),
];

fn expect_faults(rows: &[(u8, &[u8])]) -> Result<(), Fail> {
    for place in 0..rows.len() {
        let (number, text) = rows[place];
        expect_row("the errors", place, Fault::new(number).text() == text)?;
    }
    Ok(())
}

fn expect_halts(rows: &[(Halt, &[u8])]) -> Result<(), Fail> {
    for place in 0..rows.len() {
        let (halt, text) = rows[place];
        expect_row("the halts", place, halt.text() == text)?;
    }
    Ok(())
}

#[test]
fn failures_have_their_words(_rt: HostRuntime) -> Result<(), Fail> {
    expect_faults(&FAULTS)?;
    expect_halts(&HALTS)
}

/// The least and the largest number, a string, and the number that it is.
static NUMBERS: [(u32, u32, &[u8], Option<u32>); 17] = [
    (0, 254, b"0", Some(0)),
    (0, 254, b"7", Some(7)),
    (0, 254, b"254", Some(254)),
    (0, 254, b"255", None),
    (0, 254, b"4294967297", None),
    (0, 254, b"007", None),
    (0, 254, b"00", None),
    (0, 254, b"", None),
    (0, 254, b"+7", None),
    (0, 254, b"-7", None),
    (0, 254, b" 7", None),
    (0, 254, b"7 ", None),
    (0, 254, b"7%", None),
    (0, 254, b"99999999999999999999", None),
    (3, 4294967295, b"2", None),
    (3, 4294967295, b"3", Some(3)),
    (3, 4294967295, b"4294967295", Some(4294967295)),
];

#[test]
fn numbers_stand_in_their_range(_rt: HostRuntime) -> Result<(), Fail> {
    let rows = &NUMBERS;
    for place in 0..rows.len() {
        let (least, most, text, number) = rows[place];
        expect_row(
            "the numbers",
            place,
            number_between(least, most, text) == number,
        )?;
    }
    Ok(())
}

/// A string, the number of its leading blanks, letters and digits, and of its trailing blanks.
static RUNS: [(&[u8], [usize; 4]); 8] = [
    (b"", [0, 0, 0, 0]),
    (b" \t A", [3, 0, 0, 0]),
    (b"GOTO 10 ", [0, 4, 0, 1]),
    (b"10 GOTO\t ", [0, 0, 2, 2]),
    (b"9", [0, 0, 1, 0]),
    (b" \t", [2, 0, 0, 2]),
    (b"z1", [0, 1, 0, 0]),
    (b"\n ", [0, 0, 0, 1]),
];

fn runs_of(text: &[u8]) -> [usize; 4] {
    [
        blanks_in_front(text),
        letters_in_front(text),
        digits_in_front(text),
        blanks_at_end(text),
    ]
}

/// Returns how many bytes a string loses without its leading blanks, and without its trailing ones.
fn cut_off(text: &[u8]) -> (usize, usize) {
    let front = text.len().saturating_sub(without_front_blanks(text).len());
    (
        front,
        text.len().saturating_sub(without_end_blanks(text).len()),
    )
}

#[test]
fn texts_begin_and_end_with_runs(_rt: HostRuntime) -> Result<(), Fail> {
    let rows = &RUNS;
    for place in 0..rows.len() {
        let (text, runs) = rows[place];
        let is_cut = cut_off(text) == (runs[0], runs[3]);
        expect_row("the runs", place, runs_of(text) == runs && is_cut)?;
    }
    Ok(())
}

/// Returns whether a list has the numbers that it is made of.
fn gives_back(alloc: Global, numbers: &[u16]) -> bool {
    match Vec::from_slice(alloc, numbers) {
        Ok(list) => Series::from_vec(list).as_slice() == numbers,
        Err(_) => false,
    }
}

/// Fails unless a key line has the bytes that it is made of.
fn expect_keys(alloc: Global, bytes: &[u8]) -> Result<(), Fail> {
    if bytes.len() > 255 {
        return Err(Fail::new("the bytes are no key line"));
    }
    let line = KeyLine::of(alloc, bytes)?;
    expect_bytes(line.as_bytes(), bytes)
}

#[test]
fn lists_are_given_back_in_order(rt: HostRuntime) -> Result<(), Fail> {
    expect(gives_back(rt.alloc(), &[20, 10, 20]), "a list")?;
    expect_keys(rt.alloc(), b"PRINT 1")
}
