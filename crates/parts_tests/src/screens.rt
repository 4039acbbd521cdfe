//! The bytes that a screen keeps.

use crate::expects::{expect, expect_bytes};
use std::alloc::Global;
use std::test::Fail;
use terminal_line::Screen;

/// The bytes that are echoed and written.
static KEPT: &[u8] = b"\xFF\x00\r\nReady\r\n";

fn write_lines(screen: &mut Screen) -> Result<(), Fail> {
    screen.echo(b"\xFF\x00")?;
    screen.write(b"Ready")?;
    screen.write(b"")?;
    Ok(screen.echo(b"")?)
}

/// Fails unless a new screen has nothing, and keeps what is written.
fn expect_kept(alloc: Global, screen: &mut Screen) -> Result<(), Fail> {
    expect(screen.bytes().is_empty(), "a new screen has bytes")?;
    write_lines(screen)?;
    expect_bytes(alloc, screen.bytes(), KEPT)
}

#[test]
fn a_screen_keeps_what_is_written(rt: HostRuntime) -> Result<(), Fail> {
    let mut screen = Screen::new(rt.alloc());
    expect_kept(rt.alloc(), &mut screen)?;
    expect_bytes(rt.alloc(), screen.close().as_slice(), KEPT)
}

/// Begins four lines. LF and BEL leave the column as it is, so only the second ends another line.
fn begin_lines(screen: &mut Screen) -> Result<(), Fail> {
    screen.begin_line(b"A\n")?;
    screen.begin_line(b"")?;
    screen.begin_line(b"\x07")?;
    Ok(screen.begin_line(b"B")?)
}

#[test]
fn a_line_is_begun_once(rt: HostRuntime) -> Result<(), Fail> {
    let mut screen = Screen::new(rt.alloc());
    begin_lines(&mut screen)?;
    expect_bytes(rt.alloc(), screen.bytes(), b"A\n\r\n\x07B")
}
