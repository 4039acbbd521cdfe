//! Columns, and what moves them.

use crate::expects::expect_none;
use basic_values::Int;
use std::alloc::Global;
use std::test::Fail;
use terminal_line::{Screen, column_from};

/// Returns a screen whose column is this one.
fn screen_at(alloc: Global, column: usize) -> Result<Screen, Fail> {
    let mut screen = Screen::new(alloc);
    let bytes = vec![in alloc; b'X'; column]?;
    screen.write(&bytes)?;
    Ok(screen)
}

/// Bytes, and the column after them.
static BYTES: [(&[u8], u32); 9] = [
    (b"", 0),
    (b" 1  2 ", 6),
    (b"AB\r", 0),
    (b"AB\r\n", 0),
    (b"AB\n", 2),
    (b"AB\rC", 1),
    (b"A\x08\t\x07\x1b\x7f", 1),
    (b"\x20\x7e\x80\xff", 4),
    (b"\0A\0", 1),
];

/// Returns the column after bytes that are written, and after a line that is echoed then.
fn columns_behind(alloc: Global, bytes: &[u8]) -> Result<(u32, u32), Fail> {
    let mut screen = Screen::new(alloc);
    screen.write(bytes)?;
    let written = screen.column();
    screen.echo(b"AB")?;
    Ok((written, screen.column()))
}

fn first_wrong_bytes(alloc: Global) -> Result<Option<usize>, Fail> {
    for (place, (bytes, column)) in BYTES.iter().enumerate() {
        let behind = columns_behind(alloc, bytes)?;
        if behind != (*column, 0) || column_from(0, bytes) != *column {
            return Ok(Some(place));
        }
    }
    Ok(None)
}

#[test]
fn bytes_have_a_column(rt: HostRuntime) -> Result<(), Fail> {
    expect_none(rt.alloc(), first_wrong_bytes(rt.alloc())?)
}

/// Returns the column after this many bytes, after a TAB to the largest one, and after a return.
fn columns_at_the_end(alloc: Global, bytes: usize) -> Result<(u32, u32, u32), Fail> {
    let mut screen = screen_at(alloc, bytes)?;
    let written = screen.column();
    screen.tab(Int::new(32767))?;
    let behind = screen.column();
    screen.write(b"\r")?;
    Ok((written, behind, screen.column()))
}

/// A number of bytes, and the column after them.
static ENDS: [(usize, u32); 4] = [
    (32766, 32766),
    (32767, 32767),
    (32768, 32767),
    (40000, 32767),
];

fn first_wrong_end(alloc: Global) -> Result<Option<usize>, Fail> {
    for (place, (bytes, column)) in ENDS.iter().enumerate() {
        if columns_at_the_end(alloc, *bytes)? != (*column, 32767, 0) {
            return Ok(Some(place));
        }
    }
    Ok(None)
}

#[test]
fn the_greatest_column_stays(rt: HostRuntime) -> Result<(), Fail> {
    expect_none(rt.alloc(), first_wrong_end(rt.alloc())?)
}

/// A column, the one to which a comma goes from there, and how many bytes are then on the screen.
static ZONES: [(usize, u32, usize); 9] = [
    (0, 14, 14),
    (1, 14, 14),
    (13, 14, 14),
    (14, 28, 28),
    (41, 42, 42),
    (55, 56, 56),
    (56, 0, 58),
    (57, 0, 59),
    (100, 0, 102),
];

fn behind_a_comma(alloc: Global, column: usize) -> Result<(u32, usize), Fail> {
    let mut screen = screen_at(alloc, column)?;
    screen.zone()?;
    Ok((screen.column(), screen.bytes().len()))
}

fn first_wrong_zone(alloc: Global) -> Result<Option<usize>, Fail> {
    for (place, (from, to, length)) in ZONES.iter().enumerate() {
        if behind_a_comma(alloc, *from)? != (*to, *length) {
            return Ok(Some(place));
        }
    }
    Ok(None)
}

#[test]
fn a_comma_goes_to_the_next_zone(rt: HostRuntime) -> Result<(), Fail> {
    expect_none(rt.alloc(), first_wrong_zone(rt.alloc())?)
}

/// A column, the one that TAB is given there, and the one to which it goes.
static TABS: [(usize, i16, u32); 8] = [
    (0, 5, 5),
    (3, 5, 5),
    (5, 5, 5),
    (6, 5, 6),
    (6, 0, 6),
    (6, -1, 6),
    (0, -32768, 0),
    (0, 32767, 32767),
];

fn behind_a_tab(alloc: Global, column: usize, wanted: i16) -> Result<(u32, usize), Fail> {
    let mut screen = screen_at(alloc, column)?;
    screen.tab(Int::new(wanted))?;
    Ok((screen.column(), screen.bytes().len()))
}

fn first_wrong_tab(alloc: Global) -> Result<Option<usize>, Fail> {
    for (place, (from, wanted, to)) in TABS.iter().enumerate() {
        if behind_a_tab(alloc, *from, *wanted)? != (*to, *to as usize) {
            return Ok(Some(place));
        }
    }
    Ok(None)
}

#[test]
fn tab_goes_on_and_never_back(rt: HostRuntime) -> Result<(), Fail> {
    expect_none(rt.alloc(), first_wrong_tab(rt.alloc())?)
}
