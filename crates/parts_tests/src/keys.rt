//! The key lines of a port for tests.

use crate::expects::{expect, expect_none};
use basic_values::KeyLine;
use monitor_calls::{Port, ScriptPort};
use std::alloc::Global;
use std::test::Fail;

fn key_line(alloc: Global, line: &[u8]) -> Result<KeyLine, Fail> {
    if line.len() > 255 {
        return Err("a line is too long")?;
    }
    Ok(KeyLine::of(alloc, line)?)
}

/// Returns a port that gives these key lines and no replies.
fn typed(alloc: Global, lines: &[&[u8]]) -> Result<ScriptPort, Fail> {
    let mut typed = Vec::new(alloc);
    for line in lines {
        typed.push(key_line(alloc, line)?)?;
    }
    Ok(ScriptPort::typed(alloc, typed, Vec::new(alloc)))
}

/// Returns whether the next key line has these bytes.
fn is_next(alloc: Global, port: &mut ScriptPort, wanted: &[u8]) -> Result<bool, Fail> {
    match port.type_line(alloc)? {
        Some(line) => Ok(line.as_bytes() == wanted),
        None => Ok(false),
    }
}

/// Returns the place of the first of these lines that is not the next one.
fn first_wrong(
    alloc: Global,
    port: &mut ScriptPort,
    lines: &[&[u8]],
) -> Result<Option<usize>, Fail> {
    for (place, line) in lines.iter().enumerate() {
        if !is_next(alloc, port, line)? {
            return Ok(Some(place));
        }
    }
    Ok(None)
}

static TYPED: [&[u8]; 5] = [b"RUN", b"^Z", b" ^Z", b"", b"^z"];

#[test]
fn key_lines_come_in_order_and_then_the_end(rt: HostRuntime) -> Result<(), Fail> {
    let mut port = typed(rt.alloc(), &TYPED)?;
    expect_none(rt.alloc(), first_wrong(rt.alloc(), &mut port, &TYPED)?)?;
    for _ in 0..3 {
        let key = port.type_line(rt.alloc())?;
        expect(key.is_none(), "a line that nobody typed")?;
    }
    expect(port.log().len() == 8, "a log with more or fewer events")
}
