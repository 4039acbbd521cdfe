//! The drill: terminals that count in one block.

use crate::calls::*;
use crate::expects::{expect, expect_text};
use crate::pacing::{run_ordered, second_calls};
use std::alloc::Global;
use std::sync::Wait;
use std::test::Fail;
use std::thread::Threads;
use std::time::Clock;
use time_sharing::Outcome;

/// The count of terminals as a word, and as a number.
static COUNTS: [(&str, u32); 5] = [("1", 1), ("2", 2), ("4", 4), ("8", 8), ("16", 16)];

/// Fails unless as many Puts were done as the counter says, and the line has both numbers.
fn expect_drilled(alloc: Global, outcome: &Outcome, written: &[u8], jobs: u32) -> Result<(), Fail> {
    let drill = match outcome {
        Outcome::Drill(Ok(drill)) => drill,
        _ => return Err("no drill was run")?,
    };
    let puts = drill.puts;
    let is_counted = drill.jobs == jobs && puts == u64::from(drill.sum);
    expect(is_counted, "the counter is another number")?;
    let line = format!(in alloc; "DRILL {jobs} JOBS {puts} PUTS {puts} SUM\n")?;
    expect_text(written, line.as_bytes())
}

/// Runs the drill between ends of which the source would fail, with each job's second call held
/// until each has made its first.
fn expect_drill<R: Threads + Wait + Clock + Sync>(
    rt: &R,
    alloc: Global,
    count: &str,
    jobs: u32,
) -> Result<(), Fail> {
    let holds = second_calls(alloc, jobs)?;
    let (outcome, sink) = run_ordered(rt, alloc, &["drill", count], b"", &[1], jobs, &holds)?;
    expect_drilled(alloc, &outcome, sink.bytes(), jobs)
}

#[test]
fn each_put_of_a_drill_counts_once(rt: HostRuntime) -> Result<(), Fail> {
    for (count, jobs) in COUNTS.iter() {
        expect_drill(&rt, rt.alloc(), count, *jobs)?;
    }
    Ok(())
}

const ONE_JOB: &[u8] = b"DRILL 1 JOBS 20 PUTS 20 SUM\n";

/// A drill asks nothing of its source.
#[test]
fn a_drill_of_one_job_counts_to_twenty(rt: HostRuntime) -> Result<(), Fail> {
    let want = good(ONE_JOB);
    expect_between(
        &rt,
        rt.alloc(),
        &["drill", "1"],
        FIRST_SUM,
        (&[1], &[]),
        want,
    )
}

#[test]
fn a_drill_whose_sink_fails_writes_a_front(rt: HostRuntime) -> Result<(), Fail> {
    let want = refused(5, "write fault");
    expect_between(
        &rt,
        rt.alloc(),
        &["drill", "1"],
        FIRST_SUM,
        (&[1], &[1]),
        want,
    )
}
