//! Calls of the program over ends in memory, for tests.

use crate::expects::{expect, expect_text};
use rsts_io::{MemorySink, MemorySource, Sink, Source};
use std::alloc::Global;
use std::sync::Wait;
use std::test::Fail;
use std::thread::Threads;
use terminal_runner::{IdlePacer, Pacer};
use time_sharing::{Outcome, rsts_main};

pub(crate) const HEAD: &[u8] = b"RSTS-DECK 1\nDISK 8\nACCOUNT 100,5 DEMO 100\nTERMINAL T1\n";

pub(crate) const FIRST_SUM: &[u8] = b"RSTS-DECK 1\nDISK 8\nACCOUNT 100,5 DEMO 100\nTERMINAL T1\n\
>HELLO 100,5;DEMO\n>PRINT 2%+3%\n>BYE\nEND\n";

/// The same in version 2, with a quota.
pub(crate) const FIRST_SUM_2: &[u8] =
    b"RSTS-DECK 2\nDISK 8\nACCOUNT 100,5 DEMO 100 8\nTERMINAL T1\n\
>HELLO 100,5;DEMO\n>PRINT 2%+3%\n>BYE\nEND\n";

pub(crate) const SUM_REPORT: &[u8] =
    b"TERMINAL T1 60\nHELLO 100,5;DEMO\r\nReady\r\nPRINT 2%+3%\r\n 5 \r\nReady\r\nBYE\r\nBye\r\n\n";

/// What a call is to leave.
#[derive(Clone, Copy)]
pub(crate) struct Want<'a> {
    pub(crate) status: u8,
    pub(crate) line: &'a str,
    pub(crate) written: &'a [u8],
}

/// Returns the words of a call.
pub(crate) fn words_of(alloc: Global, asked: &[&str]) -> Result<Vec<String>, Fail> {
    let mut words = Vec::new(alloc);
    for word in asked {
        words.push(String::from_str(alloc, word)?)?;
    }
    Ok(words)
}

/// Calls the program between two ends. Nothing is owned here, so nothing is dropped after the call.
pub(crate) fn between<R: Threads + Wait + Sync, S: Source, K: Sink, P: Pacer + Sync>(
    rt: &R,
    alloc: Global,
    words: &[String],
    source: &mut S,
    sink: &mut K,
    pacer: &P,
) -> Outcome {
    rsts_main(rt, alloc, words, source, sink, pacer)
}

/// Returns the outcome of the program for words and an input over ends that fail at the listed
/// calls, and the sink.
pub(crate) fn answered<R: Threads + Wait + Sync, P: Pacer + Sync>(
    rt: &R,
    alloc: Global,
    asked: &[&str],
    input: &[u8],
    failing_takes: &[u64],
    failing_gifts: &[u64],
    pacer: &P,
) -> Result<(Outcome, MemorySink), Fail> {
    let words = words_of(alloc, asked)?;
    let mut source = MemorySource::new(alloc, input, failing_takes)?;
    let mut sink = MemorySink::new(alloc, failing_gifts)?;
    let outcome = between(rt, alloc, &words, &mut source, &mut sink, pacer);
    Ok((outcome, sink))
}

/// Fails with what was written or reported, unless a call left this.
pub(crate) fn expect_left(outcome: &Outcome, written: &[u8], want: Want<'_>) -> Result<(), Fail> {
    expect_text(written, want.written)?;
    expect_text(outcome.line().as_slice(), want.line.as_bytes())?;
    expect(outcome.status() == want.status, "another status")
}

/// Fails unless a call over ends that fail at the listed calls leaves this.
pub(crate) fn expect_between<R: Threads + Wait + Sync>(
    rt: &R,
    alloc: Global,
    asked: &[&str],
    input: &[u8],
    failing: (&[u64], &[u64]),
    want: Want<'_>,
) -> Result<(), Fail> {
    let (takes, gifts) = failing;
    let (outcome, sink) = answered(rt, alloc, asked, input, takes, gifts, &IdlePacer)?;
    expect_left(&outcome, sink.bytes(), want)
}

/// Fails unless a call over ends that never fail leaves this.
pub(crate) fn expect_call<R: Threads + Wait + Sync>(
    rt: &R,
    alloc: Global,
    asked: &[&str],
    input: &[u8],
    want: Want<'_>,
) -> Result<(), Fail> {
    expect_between(rt, alloc, asked, input, (&[], &[]), want)
}

/// Returns what a call leaves that writes this and says nothing.
pub(crate) fn good(written: &[u8]) -> Want<'_> {
    Want {
        status: 0,
        line: "",
        written,
    }
}

/// Returns what a call leaves that writes nothing.
pub(crate) fn refused(status: u8, line: &str) -> Want<'_> {
    Want {
        status,
        line,
        written: b"",
    }
}

/// The words of a call, an input, and what is written.
pub(crate) type Good = (&'static [&'static str], &'static [u8], &'static [u8]);

pub(crate) fn expect_all<R: Threads + Wait + Sync>(
    rt: &R,
    alloc: Global,
    rows: &[Good],
) -> Result<(), Fail> {
    for (words, input, written) in rows {
        expect_call(rt, alloc, words, input, good(written))?;
    }
    Ok(())
}
