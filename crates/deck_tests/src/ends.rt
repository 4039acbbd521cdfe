//! Sources and sinks: what each call takes and gives, and which calls fail.

use crate::expects::{expect, expect_bytes, expect_row};
use rsts_io::{
    DribbleSink, DribbleSource, Gave, INPUT_LIMIT, MemorySink, MemorySource, PlainSink,
    PlainSource, ReadEnd, SINK_ROOM, Sink, Source, StdSink, StdSource, Took, read_all,
};
use std::alloc::Global;
use std::io;
use std::io::{Read, Write};
use std::test::Fail;

/// Returns whether a source answers so, through a buffer of two bytes.
fn is_answered<S: Source>(source: &mut S, want: &[Took]) -> bool {
    for answer in want {
        let mut buffer = [0u8; 2];
        if source.take(&mut buffer) != *answer {
            return false;
        }
    }
    true
}

/// Gives the sink the next bytes of the text this often, after those that it has taken, and returns
/// the answers.
fn gifts<K: Sink>(sink: &mut K, text: &[u8], gifts: &mut [Gave]) {
    let mut rest = text;
    for gift in gifts.iter_mut() {
        if rest.is_empty() {
            return;
        }
        *gift = sink.give(rest);
        if let Gave::Bytes(count) = *gift {
            rest = &rest[count..];
        }
    }
}

/// Which calls of a source of three bytes fail, and its answers.
type FailingSource = (&'static [u64], [Took; 4]);

static SOURCES: [FailingSource; 5] = [
    (&[], [Took::Bytes(2), Took::Bytes(1), Took::End, Took::End]),
    (
        &[1],
        [Took::Failed, Took::Bytes(2), Took::Bytes(1), Took::End],
    ),
    (
        &[2],
        [Took::Bytes(2), Took::Failed, Took::Bytes(1), Took::End],
    ),
    (
        &[3],
        [Took::Bytes(2), Took::Bytes(1), Took::Failed, Took::End],
    ),
    (
        &[2, 4],
        [Took::Bytes(2), Took::Failed, Took::Bytes(1), Took::Failed],
    ),
];

/// Returns whether a source of which these calls fail answers so.
fn is_taken(alloc: Global, failing: &[u64], want: &[Took]) -> bool {
    match MemorySource::new(alloc, b"abc", failing) {
        Ok(mut source) => is_answered(&mut source, want),
        Err(_) => false,
    }
}

fn expect_taken(alloc: Global, rows: &[FailingSource]) -> Result<(), Fail> {
    for place in 0..rows.len() {
        let row = &rows[place];
        expect_row("the sources", place, is_taken(alloc, row.0, &row.1))?;
    }
    Ok(())
}

/// Returns the same for a source of which no call fails.
fn is_plainly_taken(alloc: Global, want: &[Took]) -> bool {
    match PlainSource::new(alloc, b"abc") {
        Ok(mut source) => is_answered(&mut source, want),
        Err(_) => false,
    }
}

#[test]
fn each_call_of_a_source_fails_in_turn(rt: HostRuntime) -> Result<(), Fail> {
    expect_taken(rt.alloc(), &SOURCES)?;
    let want = [Took::Bytes(2), Took::Bytes(1), Took::End, Took::End];
    expect(is_plainly_taken(rt.alloc(), &want), "a plain source")
}

/// Which calls of a sink fail, its answers, and what it has then.
type FailingSink = (&'static [u64], [Gave; 2], &'static [u8]);

static SINKS: [FailingSink; 3] = [
    (&[], [Gave::Bytes(3), Gave::Failed], b"abc"),
    (&[1], [Gave::Failed, Gave::Bytes(3)], b"abc"),
    (&[1, 2], [Gave::Failed, Gave::Failed], b""),
];

/// Returns whether a sink of which these calls fail answers so, and has these bytes then.
fn is_given(alloc: Global, failing: &[u64], want: &[Gave], bytes: &[u8]) -> Result<bool, Fail> {
    let mut sink = MemorySink::new(alloc, failing)?;
    let mut got = [Gave::Failed; 2];
    gifts(&mut sink, b"abc", &mut got);
    Ok(got.as_slice() == want && sink.bytes() == bytes)
}

fn expect_given(alloc: Global, rows: &[FailingSink]) -> Result<(), Fail> {
    for place in 0..rows.len() {
        let row = &rows[place];
        expect_row("the sinks", place, is_given(alloc, row.0, &row.1, row.2)?)?;
    }
    Ok(())
}

#[test]
fn each_call_of_a_sink_fails_in_turn(rt: HostRuntime) -> Result<(), Fail> {
    expect_given(rt.alloc(), &SINKS)
}

/// Returns whether a sink answers so to a piece that it is given three times, and is full then.
fn is_filled(alloc: Global, want: &[Gave]) -> Result<bool, Fail> {
    let mut sink = PlainSink::new(alloc)?;
    let piece = vec![in alloc; 7; 10_000_000]?;
    let mut got = [Gave::Failed; 3];
    for gift in got.iter_mut() {
        *gift = sink.give(&piece[..]);
    }
    Ok(got.as_slice() == want && sink.bytes().len() == SINK_ROOM)
}

/// A piece that does not fit is taken in part, and the next one not at all.
#[test]
fn a_full_sink_takes_what_fits(rt: HostRuntime) -> Result<(), Fail> {
    let want = [
        Gave::Bytes(10_000_000),
        Gave::Bytes(6_777_216),
        Gave::Failed,
    ];
    expect(is_filled(rt.alloc(), &want)?, "a sink that is filled")
}

/// How many bytes a call moves at most, the answers of a source of three bytes and of a sink that
/// is given five, and what the sink has then.
type Dribble = (usize, [Took; 4], [Gave; 4], &'static [u8]);

static DRIBBLES: [Dribble; 3] = [
    (
        1,
        [Took::Bytes(1), Took::Bytes(1), Took::Bytes(1), Took::End],
        [
            Gave::Bytes(1),
            Gave::Bytes(1),
            Gave::Bytes(1),
            Gave::Bytes(1),
        ],
        b"abcd",
    ),
    (
        2,
        [Took::Bytes(2), Took::Bytes(1), Took::End, Took::End],
        [Gave::Bytes(2), Gave::Bytes(2), Gave::Bytes(1), Gave::Failed],
        b"abcde",
    ),
    (
        7,
        [Took::Bytes(2), Took::Bytes(1), Took::End, Took::End],
        [Gave::Bytes(5), Gave::Failed, Gave::Failed, Gave::Failed],
        b"abcde",
    ),
];

/// Returns whether a source that gives at most this many bytes a call, at least one, answers so.
fn is_taken_slowly(alloc: Global, most: usize, want: &[Took]) -> bool {
    match DribbleSource::new(alloc, b"abc", most.max(1)) {
        Ok(mut source) => is_answered(&mut source, want),
        Err(_) => false,
    }
}

/// Returns whether a sink that takes at most this many answers so, and has these bytes then.
fn is_given_slowly(alloc: Global, most: usize, want: &[Gave], bytes: &[u8]) -> Result<bool, Fail> {
    let mut sink = DribbleSink::new(alloc, most.max(1))?;
    let mut got = [Gave::Failed; 4];
    gifts(&mut sink, b"abcde", &mut got);
    Ok(got.as_slice() == want && sink.bytes() == bytes)
}

fn expect_dribbles(alloc: Global, rows: &[Dribble]) -> Result<(), Fail> {
    for place in 0..rows.len() {
        let row = &rows[place];
        expect_row("the sources", place, is_taken_slowly(alloc, row.0, &row.1))?;
        let is_given = is_given_slowly(alloc, row.0, &row.2, row.3)?;
        expect_row("the sinks", place, is_given)?;
    }
    Ok(())
}

#[test]
fn few_bytes_move_a_call(rt: HostRuntime) -> Result<(), Fail> {
    expect_dribbles(rt.alloc(), &DRIBBLES)
}

/// A reader that gives one byte a call, and fails once, before its second byte.
#[derive(Drop)]
struct FailsOnce {
    text: &'static [u8],
    before: Option<usize>,
}

impl Read for FailsOnce {
    fn read(&mut self, buf: &mut [u8]) -> io::Result<usize> {
        if self.before == Some(0) {
            self.before = None;
            return Err(io::ErrorKind::Other.into());
        }
        self.before = self.before.map(|n| n.saturating_sub(1));
        if self.text.is_empty() || buf.is_empty() {
            return Ok(0);
        }
        buf[0] = self.text[0];
        self.text = &self.text[1..];
        Ok(1)
    }
}

/// Returns whether a source goes on after a read that failed, up to its end.
fn goes_on() -> bool {
    let mut source = StdSource::new(FailsOnce {
        text: b"ab",
        before: Some(1),
    });
    let mut text = [0u8; 2];
    let took = [
        source.take(&mut text[..1]),
        source.take(&mut text[1..]),
        source.take(&mut text[1..]),
    ];
    took == [Took::Bytes(1), Took::Failed, Took::Bytes(1)]
        && text == *b"ab"
        && source.take(&mut text) == Took::End
}

#[test]
fn a_source_goes_on_behind_a_failed_read(_rt: HostRuntime) -> Result<(), Fail> {
    expect(goes_on(), "a source behind a failed read")
}

/// A writer that takes two bytes a call, fails once, before its third byte, and takes nothing after
/// its fourth.
#[derive(Drop)]
struct TakesLittle<'a> {
    kept: &'a mut Vec<u8>,
    fails: bool,
}

impl Write for TakesLittle<'_> {
    fn write(&mut self, buf: &[u8]) -> io::Result<usize> {
        if self.fails && self.kept.len() == 2 {
            self.fails = false;
            return Err(io::ErrorKind::Other.into());
        }
        if self.kept.len() == 4 {
            return Ok(0);
        }
        let most = buf.len().min(2);
        self.kept.extend_from_slice(&buf[..most])?;
        Ok(most)
    }

    fn flush(&mut self) -> io::Result<()> {
        Ok(())
    }
}

/// Returns what such a sink answers when it is given the text, and is to keep of it.
fn gifts_kept(kept: &mut Vec<u8>, text: &[u8]) -> [Gave; 4] {
    let mut got = [Gave::Bytes(0); 4];
    let mut sink = StdSink::new(TakesLittle { kept, fails: true });
    gifts(&mut sink, text, &mut got);
    got
}

#[test]
fn a_sink_goes_on_behind_a_failed_write(rt: HostRuntime) -> Result<(), Fail> {
    let mut kept = Vec::new(rt.alloc());
    let got = gifts_kept(&mut kept, b"abcde");
    let want = [Gave::Bytes(2), Gave::Failed, Gave::Bytes(2), Gave::Failed];
    expect(got == want, "a sink behind a failed write")?;
    expect_bytes(kept.as_slice(), b"abcd")
}

/// How many bytes a source has, and why they are not read.
type Length = (usize, Option<ReadEnd>);

static LENGTHS: [Length; 4] = [
    (0, None),
    (5000, None),
    (INPUT_LIMIT, None),
    (INPUT_LIMIT + 1, Some(ReadEnd::TooLong)),
];

/// Returns whether a source of this many letters is read whole, or is not read for this reason.
fn is_read(alloc: Global, letters: &[u8], row: &Length) -> Result<bool, Fail> {
    if row.0 > letters.len() {
        return Ok(false);
    }
    let mut source = PlainSource::new(alloc, &letters[..row.0])?;
    Ok(match read_all(alloc, &mut source, INPUT_LIMIT) {
        Ok(read) => row.1 == None && read.len() == row.0,
        Err(end) => row.1 == Some(end),
    })
}

fn expect_read(alloc: Global, letters: &[u8], rows: &[Length]) -> Result<(), Fail> {
    for place in 0..rows.len() {
        let is_so = is_read(alloc, letters, &rows[place])?;
        expect_row("the lengths", place, is_so)?;
    }
    Ok(())
}

#[test]
fn a_source_is_read_to_its_end(rt: HostRuntime) -> Result<(), Fail> {
    let letters = vec![in rt.alloc(); b'A'; INPUT_LIMIT + 1]?;
    expect_read(rt.alloc(), letters.as_slice(), &LENGTHS)
}
