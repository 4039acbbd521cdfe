//! Inputs that are no decks, and ends that fail or move few bytes a call, in both versions.

use crate::calls::*;
use rsts_io::{DribbleSink, DribbleSource, INPUT_LIMIT};
use std::alloc::Global;
use std::sync::Wait;
use std::test::Fail;
use std::thread::Threads;
use terminal_runner::IdlePacer;

static VERSIONS: [&[u8]; 2] = [FIRST_SUM, FIRST_SUM_2];

/// Returns how many lines are whole in some bytes, and one.
fn last_line(bytes: &[u8]) -> usize {
    let mut line = 1usize;
    for byte in bytes {
        if *byte == b'\n' {
            line = line.saturating_add(1);
        }
    }
    line
}

fn expect_cut<R: Threads + Wait + Sync>(rt: &R, alloc: Global, front: &[u8]) -> Result<(), Fail> {
    let line = last_line(front);
    let told = format!(in alloc; "deck line {line}: input ends early")?;
    expect_call(rt, alloc, &["run"], front, refused(2, told.as_str()))
}

/// Fails unless a deck that is cut after each of its bytes but the last is rejected.
fn expect_cuts<R: Threads + Wait + Sync>(rt: &R, alloc: Global, deck: &[u8]) -> Result<(), Fail> {
    for (end, _) in deck.iter().enumerate() {
        expect_cut(rt, alloc, &deck[..end])?;
    }
    Ok(())
}

#[test]
fn a_deck_that_is_cut_at_any_byte_is_refused(rt: HostRuntime) -> Result<(), Fail> {
    for deck in VERSIONS.iter() {
        expect_cuts(&rt, rt.alloc(), deck)?;
    }
    Ok(())
}

/// A word, the takes and the gifts that fail, the status, the line, and what is written. The first
/// sum is taken by two calls, the second of which reports its end, and given by two.
type Failing = (
    &'static str,
    &'static [u64],
    &'static [u64],
    u8,
    &'static str,
    &'static [u8],
);

static FAILING: [Failing; 11] = [
    ("run", &[1], &[], 3, "read fault", b""),
    ("run", &[2], &[], 3, "read fault", b""),
    ("run", &[3], &[], 0, "", SUM_REPORT),
    ("run", &[], &[1], 5, "write fault", b""),
    ("run", &[], &[2], 5, "write fault", b"TERMINAL T1 60\n"),
    ("run", &[], &[3], 0, "", SUM_REPORT),
    ("check", &[1], &[1], 3, "read fault", b""),
    ("check", &[2], &[1], 3, "read fault", b""),
    ("check", &[3], &[], 0, "", b"GOOD 1 0 1\n"),
    ("check", &[], &[1], 5, "write fault", b""),
    ("check", &[], &[2], 0, "", b"GOOD 1 0 1\n"),
];

/// Fails unless a row leaves this of a deck.
fn expect_failing<R: Threads + Wait + Sync>(
    rt: &R,
    alloc: Global,
    deck: &[u8],
    row: &Failing,
) -> Result<(), Fail> {
    let (word, takes, gifts, status, line, written) = *row;
    let want = Want {
        status,
        line,
        written,
    };
    expect_between(rt, alloc, &[word], deck, (takes, gifts), want)
}

#[test]
fn each_call_of_each_end_fails_in_turn(rt: HostRuntime) -> Result<(), Fail> {
    for row in FAILING.iter() {
        expect_failing(&rt, rt.alloc(), FIRST_SUM, row)?;
        expect_failing(&rt, rt.alloc(), FIRST_SUM_2, row)?;
    }
    Ok(())
}

/// Runs the first sum between ends that move at most this many bytes a call.
fn expect_dribbling<R: Threads + Wait + Sync>(
    rt: &R,
    alloc: Global,
    deck: &[u8],
    most: usize,
) -> Result<(), Fail> {
    let words = words_of(alloc, &["run"])?;
    let most = most.max(1);
    let mut source = DribbleSource::new(alloc, deck, most)?;
    let mut sink = DribbleSink::new(alloc, most)?;
    let outcome = between(rt, alloc, &words, &mut source, &mut sink, &IdlePacer);
    expect_left(&outcome, sink.bytes(), good(SUM_REPORT))
}

#[test]
fn ends_that_move_few_bytes_a_call_change_nothing(rt: HostRuntime) -> Result<(), Fail> {
    for most in [1usize, 2, 7] {
        expect_dribbling(&rt, rt.alloc(), FIRST_SUM, most)?;
        expect_dribbling(&rt, rt.alloc(), FIRST_SUM_2, most)?;
    }
    Ok(())
}

/// How many lines of the deck stay at the start, what comes after them, how many of its first lines
/// do not follow, the line that is rejected, and its cause.
type Row<'a> = (usize, &'a [u8], usize, u32, &'static str);

const VERSION: &str = "not a version 1, 2 or 3 deck";

const SHAPE: &str = "wrong form";

const RANGE: &str = "number or text out of range";

const DOUBLE: &str = "name given twice";

const OWNER: &str = "unknown account";

const SPACE: &str = "no room";

static REFUSED: [Row<'static>; 12] = [
    (0, b"RSTS-DECK 9\n", 1, 1, VERSION),
    (1, b"DISK 007\n", 2, 2, SHAPE),
    (1, b"DISK 0\n", 2, 2, RANGE),
    (1, b"DISK 16385\n", 2, 2, RANGE),
    (1, b"DISK 100000000000000000000000000000\n", 2, 2, RANGE),
    (3, b"", 2, 4, DOUBLE),
    (3, b"FILE [100,6]A<60> 1\n", 3, 4, OWNER),
    (3, b"FILE [100,5]A<60> 9\n", 3, 4, SPACE),
    (7, b"TERMINAL T1\n", 7, 8, DOUBLE),
    (3, b"\n", 3, 4, SHAPE),
    (8, b"X\n", 8, 9, SHAPE),
    (8, b"END\n", 8, 9, SHAPE),
];

/// An account of project 0, in each version.
static NO_PROJECT: [Row<'static>; 2] = [
    (2, b"ACCOUNT 0,5 DEMO 100\n", 3, 3, RANGE),
    (2, b"ACCOUNT 0,5 DEMO 100 8\n", 3, 3, RANGE),
];

/// Returns how many bytes this many of the first lines have.
fn length_of_lines(deck: &[u8], lines: usize) -> usize {
    let (mut count, mut length) = (0usize, 0usize);
    for byte in deck {
        if count < lines {
            length = length.saturating_add(1);
        }
        if *byte == b'\n' {
            count = count.saturating_add(1);
        }
    }
    length
}

/// Returns the first lines of a deck, other bytes, and the lines after this many of the first.
fn changed(
    alloc: Global,
    deck: &[u8],
    kept: usize,
    other: &[u8],
    dropped: usize,
) -> Result<Vec<u8>, Fail> {
    let front = length_of_lines(deck, kept).min(deck.len());
    let behind = length_of_lines(deck, dropped).min(deck.len());
    let mut bytes = deck[..front].to_vec(alloc)?;
    bytes.extend_from_slice(other)?;
    bytes.extend_from_slice(&deck[behind..])?;
    Ok(bytes)
}

/// Fails unless a run and a check reject an input at this line for this cause.
fn expect_refused<R: Threads + Wait + Sync>(
    rt: &R,
    alloc: Global,
    input: &[u8],
    line: u32,
    cause: &str,
) -> Result<(), Fail> {
    let told = format!(in alloc; "deck line {line}: {cause}")?;
    let want = refused(2, told.as_str());
    expect_call(rt, alloc, &["run"], input, want)?;
    expect_call(rt, alloc, &["check"], input, want)
}

/// Fails unless a deck is rejected with its lines changed as a row says.
fn expect_row<R: Threads + Wait + Sync>(
    rt: &R,
    alloc: Global,
    deck: &[u8],
    row: &Row<'_>,
) -> Result<(), Fail> {
    let (kept, other, dropped, line, cause) = *row;
    let input = changed(alloc, deck, kept, other, dropped)?;
    expect_refused(rt, alloc, &input, line, cause)
}

fn expect_rows<R: Threads + Wait + Sync>(
    rt: &R,
    alloc: Global,
    deck: &[u8],
    rows: &[Row<'_>],
) -> Result<(), Fail> {
    for row in rows {
        expect_row(rt, alloc, deck, row)?;
    }
    Ok(())
}

/// Returns other bytes, and after them lines of this many letters after a greater-than sign.
fn with_long_lines(
    alloc: Global,
    front: &[u8],
    lines: usize,
    letters: usize,
) -> Result<Vec<u8>, Fail> {
    let letters = vec![in alloc; b'A'; letters]?;
    let mut bytes = front.to_vec(alloc)?;
    for _ in 0..lines {
        bytes.push(b'>')?;
        bytes.extend_from_slice(&letters)?;
        bytes.push(b'\n')?;
    }
    Ok(bytes)
}

/// Returns the lines of this many terminals.
fn terminals(alloc: Global, count: u32) -> Result<Vec<u8>, Fail> {
    let mut terminals = Vec::new(alloc);
    for number in 1..=count {
        let line = format!(in alloc; "TERMINAL T{number}\n")?;
        terminals.extend_from_slice(line.as_bytes())?;
    }
    Ok(terminals)
}

/// Fails unless these are rejected: a key line of 256 bytes in place of line 6, a text of two lines
/// of 300 bytes in a block, and a 64th terminal.
fn expect_long<R: Threads + Wait + Sync>(rt: &R, alloc: Global, deck: &[u8]) -> Result<(), Fail> {
    let keys = with_long_lines(alloc, b"", 1, 256)?;
    let file = with_long_lines(alloc, b"FILE [100,5]A<60> 1\n", 2, 300)?;
    let many = terminals(alloc, 64)?;
    let rows = [
        (5, keys.as_slice(), 6, 6, RANGE),
        (3, file.as_slice(), 3, 6, SPACE),
        (3, many.as_slice(), 7, 67, SPACE),
    ];
    expect_rows(rt, alloc, deck, &rows)
}

#[test]
fn each_cause_of_a_refusal_is_told_with_its_line(rt: HostRuntime) -> Result<(), Fail> {
    for (deck, row) in VERSIONS.iter().zip(NO_PROJECT) {
        expect_rows(&rt, rt.alloc(), deck, &REFUSED)?;
        expect_row(&rt, rt.alloc(), deck, &row)?;
        expect_long(&rt, rt.alloc(), deck)?;
    }
    Ok(())
}

/// One byte more than an input may have, in the keys of a deck.
#[test]
fn an_input_that_is_too_long_is_told_so(rt: HostRuntime) -> Result<(), Fail> {
    let letters = INPUT_LIMIT + 1 - HEAD.len() - 6;
    let mut deck = with_long_lines(rt.alloc(), HEAD, 1, letters)?;
    deck.extend_from_slice(b"END\n")?;
    let want = refused(4, "input too long");
    expect_call(&rt, rt.alloc(), &["run"], &deck, want)?;
    expect_call(&rt, rt.alloc(), &["check"], &deck, want)
}
