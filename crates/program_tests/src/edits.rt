//! Lines that are stored, replaced, deleted, listed and rejected.

use crate::expects::{expect, expect_none};
use basic_tree::{Cause, Refusal};
use basic_values::Trouble;
use line_editor::{EditRefusal, ProgramText};
use std::alloc::Global;
use std::test::Fail;

/// The answer to a line that is put into a program.
#[derive(Clone, Copy, PartialEq, Eq)]
enum Put {
    Done,
    /// The line's number is not a line number.
    Number,
    TooLong,
    TooMany,
    /// The line is rejected at this place.
    Line(u16, Cause),
    NoMemory,
}

fn line_put(text: &mut ProgramText, number: u16, rest: &[u8]) -> Put {
    match text.put_line(number, rest) {
        Ok(()) => Put::Done,
        Err(Trouble::Refused(refusal)) => refused(refusal),
        Err(Trouble::NoMemory) => Put::NoMemory,
    }
}

fn refused(refusal: EditRefusal) -> Put {
    match refusal {
        EditRefusal::Number => Put::Number,
        EditRefusal::TooLong => Put::TooLong,
        EditRefusal::TooMany => Put::TooMany,
        EditRefusal::Line(Refusal { place, cause }) => Put::Line(place, cause),
    }
}

fn lists(text: &ProgramText, from: u16, to: u16, listing: &[u8]) -> bool {
    text.list(from, to) == listing
}

/// Returns whether a line is lent as these bytes after its number, or does not exist.
fn lends(text: &ProgramText, number: u16, rest: Option<&[u8]>) -> bool {
    match (text.line(number), rest) {
        (Some(lent), Some(rest)) => lent == rest,
        (None, None) => true,
        _ => false,
    }
}

/// The number of a line, the rest of it, and what LIST shows when it has been put.
static STORED: [(u16, &[u8], &[u8]); 7] = [
    (20, b" PRINT 2%", b"20 PRINT 2%\r\n"),
    (5, b" A%=1%", b"5 A%=1%\r\n20 PRINT 2%\r\n"),
    (20, b" STOP", b"5 A%=1%\r\n20 STOP\r\n"),
    (32767, b"  ", b"5 A%=1%\r\n20 STOP\r\n32767  \r\n"),
    (5, b"", b"20 STOP\r\n32767  \r\n"),
    (6, b"", b"20 STOP\r\n32767  \r\n"),
    (1, b"!", b"1!\r\n20 STOP\r\n32767  \r\n"),
];

fn first_wrong_store(text: &mut ProgramText, rows: &[(u16, &[u8], &[u8])]) -> Option<usize> {
    for (place, (number, rest, listing)) in rows.iter().enumerate() {
        let wanted = if rest.is_empty() { None } else { Some(*rest) };
        if line_put(text, *number, rest) != Put::Done
            || !lists(text, 1, 32767, listing)
            || !lends(text, *number, wanted)
        {
            return Some(place);
        }
    }
    None
}

/// Returns how many lines a program has.
fn count(text: &ProgramText) -> usize {
    text.program().lines.len()
}

#[test]
fn lines_are_stored_in_order(rt: HostRuntime) -> Result<(), Fail> {
    let mut text = ProgramText::new(rt.alloc());
    expect_none(rt.alloc(), first_wrong_store(&mut text, &STORED))?;
    expect(count(&text) == 3, "how many lines there are")
}

/// A range, what is listed of it, and what is left when it has been deleted.
static RANGES: [(u16, u16, &[u8], &[u8]); 6] = [
    (1, 32767, b"10!\r\n20!\r\n30!\r\n", b""),
    (10, 10, b"10!\r\n", b"20!\r\n30!\r\n"),
    (11, 30, b"20!\r\n30!\r\n", b"10!\r\n"),
    (21, 29, b"", b"10!\r\n20!\r\n30!\r\n"),
    (30, 10, b"", b"10!\r\n20!\r\n30!\r\n"),
    (0, 65535, b"10!\r\n20!\r\n30!\r\n", b""),
];

/// Puts three lines out of their order into a program; returns false if one is rejected.
fn puts_three(text: &mut ProgramText) -> bool {
    line_put(text, 30, b"!") == Put::Done
        && line_put(text, 10, b"!") == Put::Done
        && line_put(text, 20, b"!") == Put::Done
}

fn is_listed_and_deleted(alloc: Global, from: u16, to: u16, listed: &[u8], left: &[u8]) -> bool {
    let mut text = ProgramText::new(alloc);
    let are_put = puts_three(&mut text);
    let is_listed = lists(&text, from, to, listed);
    text.delete(from, to);
    are_put && is_listed && lists(&text, 0, 65535, left)
}

fn first_wrong_range(alloc: Global) -> Option<usize> {
    for (place, (from, to, listed, left)) in RANGES.iter().enumerate() {
        if !is_listed_and_deleted(alloc, *from, *to, listed, left) {
            return Some(place);
        }
    }
    None
}

#[test]
fn ranges_are_listed_and_deleted(rt: HostRuntime) -> Result<(), Fail> {
    expect_none(rt.alloc(), first_wrong_range(rt.alloc()))
}

/// Lines that grow, shrink and go, at both ends of three lines and between them.
static CHANGED: [(u16, &[u8], &[u8]); 11] = [
    (20, b" PRINT 2%", b"10!\r\n20 PRINT 2%\r\n30!\r\n"),
    (10, b" A%=1%", b"10 A%=1%\r\n20 PRINT 2%\r\n30!\r\n"),
    (30, b" END", b"10 A%=1%\r\n20 PRINT 2%\r\n30 END\r\n"),
    (20, b"!!", b"10 A%=1%\r\n20!!\r\n30 END\r\n"),
    (10, b" ", b"10 \r\n20!!\r\n30 END\r\n"),
    (30, b"!", b"10 \r\n20!!\r\n30!\r\n"),
    (5, b" STOP", b"5 STOP\r\n10 \r\n20!!\r\n30!\r\n"),
    (20, b"", b"5 STOP\r\n10 \r\n30!\r\n"),
    (30, b"", b"5 STOP\r\n10 \r\n"),
    (5, b"", b"10 \r\n"),
    (10, b"", b""),
];

#[test]
fn lines_grow_and_shrink_in_place(rt: HostRuntime) -> Result<(), Fail> {
    let mut text = ProgramText::new(rt.alloc());
    expect(puts_three(&mut text), "three lines are put")?;
    expect_none(rt.alloc(), first_wrong_store(&mut text, &CHANGED))
}

/// A number, and what is lent of its line among three.
static LENT: [(u16, Option<&[u8]>); 8] = [
    (10, Some(b"!")),
    (20, Some(b"!")),
    (30, Some(b"!")),
    (0, None),
    (9, None),
    (21, None),
    (31, None),
    (65535, None),
];

fn first_wrong_line(text: &ProgramText) -> Option<usize> {
    for (place, (number, rest)) in LENT.iter().enumerate() {
        if !lends(text, *number, *rest) {
            return Some(place);
        }
    }
    None
}

#[test]
fn a_line_is_lent_where_it_is_there(rt: HostRuntime) -> Result<(), Fail> {
    let mut text = ProgramText::new(rt.alloc());
    expect(puts_three(&mut text), "three lines are put")?;
    expect_none(rt.alloc(), first_wrong_line(&text))
}

/// The number of a line, the rest of it, and its answer; none means 300 bytes.
static REFUSED: [(u16, Option<&[u8]>, Put); 10] = [
    (0, Some(b""), Put::Number),
    (0, None, Put::Number),
    (32768, Some(b" STOP"), Put::Number),
    (10, None, Put::TooLong),
    (10, Some(b" A=1"), Put::Line(1, Cause::FloatingName)),
    (10, Some(b" GOTO"), Put::Line(1, Cause::Syntax)),
    (10, Some(b" A%=40000"), Put::Line(4, Cause::NumberTooWide)),
    (10, Some(b"5 STOP"), Put::Line(0, Cause::Syntax)),
    (32768, Some(b" MAT READ A%"), Put::Number),
    (10, Some(b" MAT READ A$"), Put::Line(2, Cause::Syntax)),
];

/// Returns whether a program of one line gives this answer, and keeps its line.
fn is_refused(alloc: Global, number: u16, rest: &[u8], answer: Put) -> bool {
    let mut text = ProgramText::new(alloc);
    let is_put = line_put(&mut text, 10, b" STOP") == Put::Done;
    let is_refused = line_put(&mut text, number, rest) == answer;
    is_put && is_refused && lists(&text, 1, 32767, b"10 STOP\r\n")
}

fn first_wrong_refusal(alloc: Global, long: &[u8]) -> Option<usize> {
    for (place, (number, rest, answer)) in REFUSED.iter().enumerate() {
        let rest = match rest {
            Some(rest) => *rest,
            None => long,
        };
        if !is_refused(alloc, *number, rest, *answer) {
            return Some(place);
        }
    }
    None
}

#[test]
fn refused_lines_change_nothing(rt: HostRuntime) -> Result<(), Fail> {
    let long = vec![in rt.alloc(); b'&'; 300]?;
    let wrong = first_wrong_refusal(rt.alloc(), long.as_slice());
    expect_none(rt.alloc(), wrong)
}

/// Returns the answer to a comment of this many bytes.
fn comment(alloc: Global, number: u16, length: usize) -> Result<Put, Fail> {
    let rest = vec![in alloc; b'!'; length]?;
    let mut text = ProgramText::new(alloc);
    Ok(line_put(&mut text, number, &rest))
}

/// A number, the length of a comment after it, and its answer.
static COMMENTS: [(u16, usize, Put); 6] = [
    (1, 254, Put::Done),
    (1, 255, Put::TooLong),
    (99, 253, Put::Done),
    (99, 254, Put::TooLong),
    (32767, 250, Put::Done),
    (32767, 251, Put::TooLong),
];

fn first_wrong_comment(alloc: Global) -> Result<Option<usize>, Fail> {
    for (place, (number, length, answer)) in COMMENTS.iter().enumerate() {
        if comment(alloc, *number, *length)? != *answer {
            return Ok(Some(place));
        }
    }
    Ok(None)
}

#[test]
fn a_line_has_255_bytes_with_its_number(rt: HostRuntime) -> Result<(), Fail> {
    expect_none(rt.alloc(), first_wrong_comment(rt.alloc())?)
}

/// Puts this many lines into a program, from a number on; returns false if one is rejected.
fn puts(text: &mut ProgramText, first: u16, count: u16, rest: &[u8]) -> bool {
    for number in first..first.saturating_add(count) {
        if line_put(text, number, rest) != Put::Done {
            return false;
        }
    }
    true
}

/// Puts 1,000 lines into a program in decreasing order.
fn puts_falling(text: &mut ProgramText) -> bool {
    for entered in 0..1000 {
        if line_put(text, 1000 - entered, b"!") != Put::Done {
            return false;
        }
    }
    true
}

/// Fails unless a program of decreasing lines has those of one of increasing lines.
fn expect_same(risen: &ProgramText, fallen: &ProgramText) -> Result<(), Fail> {
    let middle = b"499!\r\n500!\r\n501!\r\n";
    expect(lists(fallen, 1, 32767, risen.list(1, 32767)), "all lines")?;
    expect(lists(fallen, 499, 501, middle), "the lines in the middle")?;
    expect(count(fallen) == 1000, "how many lines there are")
}

#[test]
fn lines_may_be_entered_in_falling_order(rt: HostRuntime) -> Result<(), Fail> {
    let mut risen = ProgramText::new(rt.alloc());
    let mut fallen = ProgramText::new(rt.alloc());
    let are_put = puts(&mut risen, 1, 1000, b"!") && puts_falling(&mut fallen);
    expect(are_put, "all lines are put")?;
    expect_same(&risen, &fallen)
}

/// Fails unless 1,000 lines of 255 bytes with their numbers, from 1000 on, are listed whole, and
/// the first and the last are lent.
fn expect_long(text: &mut ProgramText, rest: &[u8]) -> Result<(), Fail> {
    expect(puts(text, 1000, 1000, rest), "all lines are put")?;
    expect(text.list(1, 32767).len() == 257_000, "all lines")?;
    expect(text.list(1500, 1500).len() == 257, "line 1500")?;
    expect(lends(text, 1000, Some(rest)), "line 1000")?;
    expect(lends(text, 1999, Some(rest)), "line 1999")?;
    expect(lends(text, 2000, None), "line 2000")
}

#[test]
fn long_lines_are_listed_whole(rt: HostRuntime) -> Result<(), Fail> {
    let rest = vec![in rt.alloc(); b'!'; 251]?;
    let mut text = ProgramText::new(rt.alloc());
    expect_long(&mut text, &rest)
}

/// Lines that are put into a program of 1,000 lines one after another, and their answers.
static BEYOND: [(u16, &[u8], Put); 7] = [
    (1001, b"!", Put::TooMany),
    (1001, b" A=1", Put::Line(1, Cause::FloatingName)),
    (1001, b"", Put::Done),
    (1000, b" STOP", Put::Done),
    (500, b"", Put::Done),
    (1001, b"!", Put::Done),
    (500, b"!", Put::TooMany),
];

fn first_wrong_beyond(text: &mut ProgramText) -> Option<usize> {
    for (place, (number, rest, answer)) in BEYOND.iter().enumerate() {
        if line_put(text, *number, rest) != *answer {
            return Some(place);
        }
    }
    None
}

/// Fails with the first row whose line a program of 1,000 lines answers otherwise.
fn expect_full(alloc: Global, text: &mut ProgramText) -> Result<(), Fail> {
    expect(puts(text, 1, 1000, b"!"), "all lines are put")?;
    expect_none(alloc, first_wrong_beyond(text))?;
    expect(count(text) == 1000, "how many lines there are")
}

#[test]
fn a_text_has_1000_lines(rt: HostRuntime) -> Result<(), Fail> {
    let mut text = ProgramText::new(rt.alloc());
    expect_full(rt.alloc(), &mut text)
}
