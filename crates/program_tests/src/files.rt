//! Program files, written and read.

use crate::expects::expect_none;
use basic_values::Trouble;
use line_editor::ProgramText;
use monitor_calls::Page;
use std::alloc::Global;
use std::slice;
use std::test::Fail;

/// Returns one page that begins with these bytes.
fn page_of(alloc: Global, bytes: &[u8]) -> Result<Page, Fail> {
    let mut whole = [0u8; 512];
    let count = bytes.len().min(512);
    whole[..count].copy_from_slice(&bytes[..count]);
    let mut page = Page::new(alloc)?;
    page.fill(&whole);
    Ok(page)
}

/// The bytes of a file, and its program as LIST shows it; none if it is rejected with 50.
static FILES: [(&[u8], Option<&[u8]>); 18] = [
    (b"", Some(b"")),
    (b"10 STOP\r\n20 END\r\n", Some(b"10 STOP\r\n20 END\r\n")),
    (b"20 END\n10 STOP", Some(b"10 STOP\r\n20 END\r\n")),
    (b"10 STOP\n0010 END\n", Some(b"10 END\r\n")),
    (b"1\x000 ST\x00OP\r\n", Some(b"10 STOP\r\n")),
    (b"10\r\n20 END\r\n", Some(b"10\r\n20 END\r\n")),
    (b"10!\r\r\n", Some(b"10!\r\r\n")),
    (b"10!\r", Some(b"10!\r\r\n")),
    (b" 10 STOP\r\n", None),
    (b"10 STOP\r\n\r\n", None),
    (b"\n", None),
    (b"STOP", None),
    (b"0 STOP", None),
    (b"32768 STOP", None),
    (b"99999999999999999999 STOP", None),
    (b"10 STOP\r\n20 A=1", None),
    (
        b"10 STOP\r\n20 MAT READ A%",
        Some(b"10 STOP\r\n20 MAT READ A%\r\n"),
    ),
    (b"10 A=1\r\n10 STOP", None),
];

fn has_listing(text: &ProgramText, wanted: Option<&[u8]>) -> bool {
    match wanted {
        Some(listing) => text.list(1, 32767) == listing,
        None => false,
    }
}

/// Returns whether LIST shows the program of a file so; for none, whether it is rejected with 50.
fn is_listed(alloc: Global, pages: &[Page], wanted: Option<&[u8]>) -> bool {
    match ProgramText::from_file(alloc, pages) {
        Ok(text) => has_listing(&text, wanted),
        Err(Trouble::Refused(fault)) => fault.number() == 50 && wanted.is_none(),
        Err(Trouble::NoMemory) => false,
    }
}

fn is_read(alloc: Global, bytes: &[u8], wanted: Option<&[u8]>) -> Result<bool, Fail> {
    let page = page_of(alloc, bytes)?;
    Ok(is_listed(alloc, slice::from_ref(&page), wanted))
}

fn first_wrong(alloc: Global) -> Result<Option<usize>, Fail> {
    for (place, (bytes, wanted)) in FILES.iter().enumerate() {
        if !is_read(alloc, bytes, *wanted)? {
            return Ok(Some(place));
        }
    }
    Ok(None)
}

#[test]
fn a_file_is_read(rt: HostRuntime) -> Result<(), Fail> {
    expect_none(rt.alloc(), first_wrong(rt.alloc())?)
}

/// Puts this many lines into a program.
fn put_lines(text: &mut ProgramText, count: u16) -> Result<(), Fail> {
    for number in 100..100u16.saturating_add(count) {
        if text.put_line(number, b"!!").is_err() {
            return Err(Fail::from("a line is refused"));
        }
    }
    Ok(())
}

/// Returns whether the file of a program has this many pages, and is read as that program.
fn is_kept(alloc: Global, text: &ProgramText, pages: usize) -> Result<bool, Fail> {
    let file = text.to_file()?;
    Ok(file.len() == pages && is_listed(alloc, file.as_slice(), Some(text.list(1, 32767))))
}

/// Does the same for a program of this many lines.
fn is_written(alloc: Global, count: u16, pages: usize) -> Result<bool, Fail> {
    let mut text = ProgramText::new(alloc);
    put_lines(&mut text, count)?;
    is_kept(alloc, &text, pages)
}

/// How many lines a program has, and how many pages its file.
static SIZES: [(u16, usize); 5] = [(0, 0), (1, 1), (73, 1), (74, 2), (147, 3)];

fn first_wrong_size(alloc: Global) -> Result<Option<usize>, Fail> {
    for (place, (lines, pages)) in SIZES.iter().enumerate() {
        if !is_written(alloc, *lines, *pages)? {
            return Ok(Some(place));
        }
    }
    Ok(None)
}

#[test]
fn a_file_has_whole_pages(rt: HostRuntime) -> Result<(), Fail> {
    expect_none(rt.alloc(), first_wrong_size(rt.alloc())?)
}
