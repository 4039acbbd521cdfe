//! Lines of a live input, and how they are read.

use crate::expects::expect;
use live_lines::{LineReader, NextLine, live_line};
use monitor_calls::TerminalName;
use rsts_io::PlainSource;
use std::alloc::Global;
use std::test::Fail;

/// A line's text, and what it says: a terminal's place and the keys, or none for a hang-up.
type Row = (&'static [u8], Option<(usize, Option<&'static [u8]>)>);

static ROWS: [Row; 9] = [
    (b"T1>PRINT 2%+3%", Some((0, Some(b"PRINT 2%+3%")))),
    (b"T2>", Some((1, Some(b"")))),
    (b"T2>A>B.", Some((1, Some(b"A>B.")))),
    (b"T1.", Some((0, None))),
    (b"T1..", None),
    (b"T1.X", None),
    (b"T3>X", None),
    (b"T1", None),
    (b"", None),
];

fn names(alloc: Global) -> Result<Vec<TerminalName>, Fail> {
    let mut names = Vec::new(alloc);
    for text in [b"T1", b"T2"] {
        if let Some(name) = TerminalName::of(text.as_slice()) {
            names.push(name)?;
        }
    }
    Ok(names)
}

#[test]
fn lines_say_what_is_typed_where(rt: HostRuntime) -> Result<(), Fail> {
    let names = names(rt.alloc())?;
    for (text, want) in ROWS.iter() {
        expect(
            live_line(&names, text) == *want,
            "a line says something else",
        )?;
    }
    Ok(())
}

#[test]
fn a_source_is_read_in_lines(rt: HostRuntime) -> Result<(), Fail> {
    let alloc = rt.alloc();
    let mut source = PlainSource::new(alloc, b"T1>A\n\nT1.\nrest")?;
    let mut reader = LineReader::new(alloc);
    for want in [b"T1>A".as_slice(), b"".as_slice(), b"T1.".as_slice()] {
        match reader.next_line(alloc, &mut source, 264)? {
            NextLine::Line(line) => expect(line.as_slice() == want, "another line was read")?,
            _ => return Err(Fail::new("no line was read")),
        }
    }
    match reader.next_line(alloc, &mut source, 264)? {
        NextLine::End => expect(reader.left() == b"rest".as_slice(), "other bytes are left"),
        _ => Err(Fail::new("the end was not met")),
    }
}
