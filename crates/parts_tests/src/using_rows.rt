//! What PRINT USING writes.

use crate::expects::{expect, expect_none};
use basic_values::Trouble;
use print_using::{Using, format_line, format_values};
use std::alloc::Global;
use std::test::Fail;

/// What a format writes of values.
#[derive(Clone, Copy)]
enum Told {
    Bytes(&'static [u8]),
    Fault(u8),
}

type Row = (&'static [u8], &'static [Using<'static>], Told);

fn tells(alloc: Global, row: &Row) -> Result<bool, Fail> {
    match format_values(alloc, row.0, row.1) {
        Ok(text) => Ok(matches!(row.2, Told::Bytes(bytes) if text.as_slice() == bytes)),
        Err(Trouble::Refused(fault)) => {
            Ok(matches!(row.2, Told::Fault(number) if number == fault.number()))
        }
        Err(Trouble::NoMemory) => Err("no memory".into()),
    }
}

fn first_wrong(alloc: Global, rows: &[Row]) -> Result<Option<usize>, Fail> {
    for (place, row) in rows.iter().enumerate() {
        if !tells(alloc, row)? {
            return Ok(Some(place));
        }
    }
    Ok(None)
}

static NUMBERS: [Row; 14] = [
    (b"###-", &[Using::Number(-42)], Told::Bytes(b" 42-")),
    (b"###-", &[Using::Number(42)], Told::Bytes(b" 42 ")),
    (b"####", &[Using::Number(-42)], Told::Bytes(b" -42")),
    (b"**##", &[Using::Number(7)], Told::Bytes(b"***7")),
    (b"**##-", &[Using::Number(-7)], Told::Bytes(b"***7-")),
    (b"**##", &[Using::Number(-7)], Told::Bytes(b"**-7")),
    (b"**", &[Using::Number(7)], Told::Bytes(b"*7")),
    (b"##", &[Using::Number(99)], Told::Bytes(b"99")),
    (b"##", &[Using::Number(123)], Told::Bytes(b"%123")),
    (b"##", &[Using::Number(-42)], Told::Bytes(b"%-42")),
    (b"#-", &[Using::Number(-42)], Told::Bytes(b"%42-")),
    (b"######", &[Using::Number(-32768)], Told::Bytes(b"-32768")),
    (b"#--", &[Using::Number(5)], Told::Bytes(b"5 -")),
    (b"-#", &[Using::Number(-5)], Told::Bytes(b"-%-5")),
];

#[test]
fn a_number_stands_right_in_its_places(rt: HostRuntime) -> Result<(), Fail> {
    expect_none(rt.alloc(), first_wrong(rt.alloc(), &NUMBERS)?)
}

static TEXTS: [Row; 9] = [
    (b"!", &[Using::Text(b"ABC")], Told::Bytes(b"A")),
    (b"!", &[Using::Text(b"")], Told::Bytes(b" ")),
    (b"\\\\", &[Using::Text(b"ABC")], Told::Bytes(b"AB")),
    (b"\\\\", &[Using::Text(b"A")], Told::Bytes(b"A ")),
    (b"\\  \\", &[Using::Text(b"ABCDE")], Told::Bytes(b"ABCD")),
    (b"<\\ \\>", &[Using::Text(b"")], Told::Bytes(b"<   >")),
    (b"\\ !", &[Using::Text(b"A")], Told::Bytes(b"\\ A")),
    (b"\\x\\!", &[Using::Text(b"A")], Told::Bytes(b"\\x\\A")),
    (
        b"!!",
        &[Using::Text(b"A"), Using::Text(b"B")],
        Told::Bytes(b"AB"),
    ),
];

#[test]
fn a_text_is_cut_to_its_field(rt: HostRuntime) -> Result<(), Fail> {
    expect_none(rt.alloc(), first_wrong(rt.alloc(), &TEXTS)?)
}

static TAKEN: [Row; 14] = [
    (
        b"\\ \\ ##;",
        &[Using::Text(b"ABCD"), Using::Number(5)],
        Told::Bytes(b"ABC  5;"),
    ),
    (
        b"<##>",
        &[Using::Number(1), Using::Number(2), Using::Number(3)],
        Told::Bytes(b"< 1>< 2>< 3>"),
    ),
    (
        b"A# B# C",
        &[Using::Number(1), Using::Number(2), Using::Number(3)],
        Told::Bytes(b"A1 B2 CA3 B"),
    ),
    (b"A# B# C", &[Using::Number(1)], Told::Bytes(b"A1 B")),
    (b"A# B", &[], Told::Bytes(b"A")),
    (
        b"***#",
        &[Using::Number(7), Using::Number(8)],
        Told::Bytes(b"*7*8"),
    ),
    (b"AB*", &[], Told::Bytes(b"AB*")),
    (b"", &[], Told::Bytes(b"")),
    (b"AB*", &[Using::Number(1)], Told::Fault(50)),
    (b"", &[Using::Text(b"A")], Told::Fault(50)),
    (b"##", &[Using::Text(b"A")], Told::Fault(50)),
    (b"!", &[Using::Number(1)], Told::Fault(50)),
    (b"\\ \\", &[Using::Number(1)], Told::Fault(50)),
    (
        b"# !",
        &[Using::Number(1), Using::Text(b"A"), Using::Text(b"B")],
        Told::Fault(50),
    ),
];

#[test]
fn each_value_takes_the_next_field_of_its_kind(rt: HostRuntime) -> Result<(), Fail> {
    expect_none(rt.alloc(), first_wrong(rt.alloc(), &TAKEN)?)
}

fn line_of(alloc: Global, format: &[u8], number: i16, want: &[u8]) -> bool {
    match format_line(alloc, format, &[Using::Number(number)]) {
        Ok(text) => text.as_slice() == want,
        Err(_) => false,
    }
}

#[test]
fn a_line_ends_behind_its_bytes(rt: HostRuntime) -> Result<(), Fail> {
    expect(line_of(rt.alloc(), b"## A", 5, b" 5 A\r\n"), "another line")
}
