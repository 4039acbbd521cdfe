//! A check and a replay, called without words. They need neither threads nor waiting.

use crate::calls::{FIRST_SUM, SUM_REPORT, expect_left, good};
use rsts_io::{MemorySink, MemorySource};
use std::test::Fail;
use time_sharing::{Outcome, check_system, replay_system};

#[test]
fn a_deck_is_checked_without_threads(rt: HostRuntime) -> Result<(), Fail> {
    let alloc = rt.alloc();
    let mut source = MemorySource::new(alloc, FIRST_SUM, &[])?;
    let mut sink = MemorySink::new(alloc, &[])?;
    let outcome = Outcome::Check(check_system(alloc, &mut source, &mut sink));
    expect_left(&outcome, sink.bytes(), good(b"GOOD 1 0 1\n"))
}

/// The deck of the first sum, and its history.
const SUM_TOLD: &[u8] = b"RSTS-DECK 1\nDISK 8\nACCOUNT 100,5 DEMO 100\nTERMINAL T1\n\
>HELLO 100,5;DEMO\n>PRINT 2%+3%\n>BYE\nEND\n\
HISTORY 2\n0 LOGIN 100,5 44454d4f = DONE\n0 LOGOUT = DONE\n";

#[test]
fn a_run_is_replayed_without_threads(rt: HostRuntime) -> Result<(), Fail> {
    let alloc = rt.alloc();
    let mut source = MemorySource::new(alloc, SUM_TOLD, &[])?;
    let mut sink = MemorySink::new(alloc, &[])?;
    let outcome = Outcome::Replay(replay_system(alloc, &mut source, &mut sink));
    expect_left(&outcome, sink.bytes(), good(SUM_REPORT))
}
