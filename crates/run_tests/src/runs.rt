//! Whole runs and checks between ends in memory, and the words that ask for them.

ghost use Rattle.std.specs.Prelude.{◌≡◌, ◌≤◌, length, IfOk};
ghost use Rattle.deck_model.specs.Deck.{Deck};
ghost use Rattle.deck_model.specs.Spelling.{Spelled};
ghost use Rattle.run_tests.specs.RunEnds.{RanOrLacked};

use crate::calls::*;
use crate::pacing::{expect_ordered, second_calls};
use crate::screens::{LOGIN, Row, expect_at};
use rsts_io::{INPUT_LIMIT, PlainSink, PlainSource};
use std::alloc::Global;
use std::sync::Wait;
use std::test::Fail;
use std::thread::Threads;
use std::time::Clock;
use terminal_runner::IdlePacer;
use time_sharing::{Outcome, rsts_main};

const NO_KEYS: &[u8] = b"RSTS-DECK 1\nDISK 8\nACCOUNT 100,5 DEMO 100\nTERMINAL T1\nEND\n";

static RUN_OR_CHECKED: [Good; 4] = [
    (&["run"], FIRST_SUM, SUM_REPORT),
    (&["run"], NO_KEYS, b"TERMINAL T1 0\n\n"),
    (&["check"], FIRST_SUM, b"GOOD 1 0 1\n"),
    (&["check"], NO_KEYS, b"GOOD 1 0 1\n"),
];

#[test]
fn a_program_that_always_wants_memory_fails_these_rows(rt: HostRuntime) -> Result<(), Fail> {
    expect_all(&rt, rt.alloc(), &RUN_OR_CHECKED)
}

const USAGE: &str = "usage: rsts run [--history] [--printer] | check | drill N | replay";

static OTHER_WORDS: [&[&str]; 21] = [
    &[""],
    &["RUN"],
    &["runs"],
    &["check "],
    &[],
    &["run", "run"],
    &["run", "3"],
    &["check", "--history"],
    &["check", "--printer"],
    &["drill"],
    &["drill", "0"],
    &["drill", "17"],
    &["drill", "04"],
    &["drill", "+4"],
    &["drill", "4", "--history"],
    &["drill", "4", "--printer"],
    &["run", "--printer", "--printer"],
    &["drill", "4", "4"],
    &["replay", "--history"],
    &["replay", "3"],
    &["REPLAY"],
];

#[test]
fn other_words_are_told_the_usage(rt: HostRuntime) -> Result<(), Fail> {
    for words in OTHER_WORDS.iter() {
        let failing: (&[u64], &[u64]) = (&[1], &[1]);
        expect_between(
            &rt,
            rt.alloc(),
            words,
            FIRST_SUM,
            failing,
            refused(1, USAGE),
        )?;
    }
    Ok(())
}

/// The report of the first sum, and then its history.
const SUM_HISTORY: &[u8] =
    b"TERMINAL T1 60\nHELLO 100,5;DEMO\r\nReady\r\nPRINT 2%+3%\r\n 5 \r\nReady\r\nBYE\r\nBye\r\n\n\
HISTORY 2\n0 LOGIN 100,5 44454d4f = DONE\n0 LOGOUT = DONE\n";

static HISTORIES: [Good; 3] = [
    (&["run", "--history"], FIRST_SUM, SUM_HISTORY),
    (&["--history", "run"], FIRST_SUM, SUM_HISTORY),
    (
        &["run", "--history"],
        NO_KEYS,
        b"TERMINAL T1 0\n\nHISTORY 0\n",
    ),
];

#[test]
fn the_history_stands_behind_the_report(rt: HostRuntime) -> Result<(), Fail> {
    expect_all(&rt, rt.alloc(), &HISTORIES)
}

pub(crate) const TWO: &[u8] = b"RSTS-DECK 1\nDISK 8\nACCOUNT 100,5 DEMO 100\nACCOUNT 1,2 SYS 50\n\
TERMINAL T1\n>HELLO 100,5;DEMO\n>BYE\nTERMINAL T2\n>HELLO 1,2;SYS\n>BYE\nEND\n";

const TWO_REPORT: &[u8] = b"TERMINAL T1 35\nHELLO 100,5;DEMO\r\nReady\r\nBYE\r\nBye\r\n\n\
TERMINAL T2 32\nHELLO 1,2;SYS\r\nReady\r\nBYE\r\nBye\r\n\n";

/// Runs a deck with each job's second call held until each has made its first, and fails unless
/// this was written.
fn run_together<R: Threads + Wait + Clock + Sync>(
    rt: &R,
    alloc: Global,
    jobs: u32,
    deck: &[u8],
    want: &[u8],
) -> Result<(), Fail> {
    let holds = second_calls(alloc, jobs)?;
    expect_ordered(rt, alloc, &["run"], deck, jobs, &holds, want)
}

#[test]
fn two_terminals_run_beside_each_other(rt: HostRuntime) -> Result<(), Fail> {
    run_together(&rt, rt.alloc(), 2, TWO, TWO_REPORT)
}

/// Terminals each of which logs in and out, and their report.
const FOUR: &[u8] = b"RSTS-DECK 1\nDISK 8\nACCOUNT 100,5 DEMO 100\n\
TERMINAL T1\n>HELLO 100,5;DEMO\n>BYE\nTERMINAL T2\n>HELLO 100,5;DEMO\n>BYE\n\
TERMINAL T3\n>HELLO 100,5;DEMO\n>BYE\nTERMINAL T4\n>HELLO 100,5;DEMO\n>BYE\nEND\n";

const FOUR_REPORT: &[u8] = b"TERMINAL T1 35\nHELLO 100,5;DEMO\r\nReady\r\nBYE\r\nBye\r\n\n\
TERMINAL T2 35\nHELLO 100,5;DEMO\r\nReady\r\nBYE\r\nBye\r\n\n\
TERMINAL T3 35\nHELLO 100,5;DEMO\r\nReady\r\nBYE\r\nBye\r\n\n\
TERMINAL T4 35\nHELLO 100,5;DEMO\r\nReady\r\nBYE\r\nBye\r\n\n";

#[test]
fn four_terminals_run_beside_each_other(rt: HostRuntime) -> Result<(), Fail> {
    run_together(&rt, rt.alloc(), 4, FOUR, FOUR_REPORT)
}

static JUDGED: [Row<'static>; 14] = [
    ("PRINT A", "?Floating variable\nReady\n"),
    ("PRINT 1.5", "?Floating literal\nReady\n"),
    ("PRINT 40000", "?Number too wide\nReady\n"),
    ("PRINT \"AB", "?Open string\nReady\n"),
    ("PRINT 1%+", "?Syntax error\nReady\n"),
    ("&", "?Stray byte\nReady\n"),
    ("10 PRINT A", "?Floating variable\nReady\n"),
    ("0 PRINT 1%", "?Illegal line number\nReady\n"),
    ("GOTO 10", "?Illegal in immediate mode\nReady\n"),
    ("LIST", "NONAME\nReady\n"),
    ("RUN", "NONAME\nReady\n"),
    ("OLD", "?Illegal command\nReady\n"),
    ("PRINT (2%)", " 2 \nReady\n"),
    ("print 2 + 3%", " 5 \nReady\n"),
];

#[test]
fn lines_are_judged_by_the_grammar(rt: HostRuntime) -> Result<(), Fail> {
    for row in JUDGED.iter() {
        expect_at(&rt, rt.alloc(), 1, &[LOGIN, *row])?;
    }
    Ok(())
}

const MODIFIED: &str = "PRINT I%; FOR I%=1% TO 3% IF I%=0%";

static EXPRESSIONS: [Row<'static>; 10] = [
    LOGIN,
    ("PRINT 32767%+1%; -7%/2%", "-32768 -3 \nReady\n"),
    ("PRINT 'AB'='AB  '; 'AB'=='AB  '", "-1  0 \nReady\n"),
    (
        "PRINT ASCII(CVT%$(258%)); CVT$%(CVT%$(258%)); SWAP%(258%)",
        " 1  258  513 \nReady\n",
    ),
    (
        "PRINT LEFT('ABCDE',2%);MID('ABCDE',2%,3%);RIGHT('ABCDE',4%)",
        "ABBCDDE\nReady\n",
    ),
    ("PRINT 1%,2%", " 1             2 \nReady\n"),
    (MODIFIED, " 1  2  3 \nReady\n"),
    (MODIFIED, "Ready\n"),
    ("10 A=1", "?Floating variable\nReady\n"),
    ("LISTNH", "Ready\n"),
];

#[test]
fn expressions_of_immediate_lines(rt: HostRuntime) -> Result<(), Fail> {
    expect_at(&rt, rt.alloc(), 1, &EXPRESSIONS)
}

static ERRORS: [Row<'static>; 13] = [
    LOGIN,
    ("10 ON ERROR GOTO 100", ""),
    ("20 PRINT 1%; : PRINT 6%/D%; : PRINT 3%", ""),
    ("30 END", ""),
    ("100 D%=2% : RESUME", ""),
    ("RUNNH", " 1  3  3 \nReady\n"),
    ("100 PRINT 2%/0%", ""),
    ("RUNNH", " 1 \n?Division by 0 at line 100\nReady\n"),
    ("NEW", "Ready\n"),
    ("10 PRINT 1%/0%", ""),
    ("RUNNH", "?Division by 0 at line 10\nReady\n"),
    ("10 GOTO 20", ""),
    ("RUNNH", "?Undefined line at line 10\nReady\n"),
];

#[test]
fn errors_and_traps(rt: HostRuntime) -> Result<(), Fail> {
    expect_at(&rt, rt.alloc(), 1, &ERRORS)
}

static FUNCTIONS: [Row<'static>; 18] = [
    LOGIN,
    ("10 DEF FNF%(N%)", ""),
    ("20 IF N%<2% THEN FNF%=1% ELSE FNF%=N%*FNF%(N%-1%)", ""),
    ("30 FNEND", ""),
    ("40 PRINT FNF%(7%)", ""),
    ("RUNNH", " 5040 \nReady\n"),
    ("40 PRINT FNF%(40%)", ""),
    ("RUNNH", "?Nested too deep at line 20\nReady\n"),
    ("NEW", "Ready\n"),
    ("10 FOR I%=3% TO 1%", ""),
    ("20 NEXT I%", ""),
    ("30 PRINT I%", ""),
    ("RUNNH", " 3 \nReady\n"),
    ("NEW", "Ready\n"),
    ("10 STOP", ""),
    ("20 PRINT 2%", ""),
    ("RUNNH", "Stop at line 10\nReady\n"),
    ("CONT", " 2 \nReady\n"),
];

#[test]
fn functions_and_loops(rt: HostRuntime) -> Result<(), Fail> {
    expect_at(&rt, rt.alloc(), 1, &FUNCTIONS)
}

/// Returns a line in which a call of FNF% is inside 64 levels, the deepest nesting that is read: 57
/// openings, each ended by a parenthesis, and seven parentheses.
fn deepest_line(alloc: Global, opening: &str) -> Result<String, Fail> {
    let mut line = String::from_str(alloc, "80 FNF%=")?;
    for _ in 0..57 {
        line.push_str(opening)?;
    }
    line.push_str("(((((((FNF%")?;
    for _ in 0..64 {
        line.push_str(")")?;
    }
    Ok(line)
}

/// Fails unless a program of these calls, each made in that line, shows this at each of two
/// terminals, of which one at least has a thread that was made for it.
fn expect_calls<'a, R: Threads + Wait + Sync>(
    rt: &R,
    alloc: Global,
    calls: &'a str,
    deepest: &'a str,
    answer: &'a str,
) -> Result<(), Fail> {
    let rows = [
        LOGIN,
        (calls, ""),
        ("20 A%(1)=2 : A%(2)=1", ""),
        ("30 PRINT FNF%", ""),
        ("40 END", ""),
        ("50 DEF FNF%", ""),
        ("60 N%=N%-1", ""),
        ("70 IF N%=0 THEN 100", ""),
        (deepest, ""),
        ("90 GOTO 110", ""),
        ("100 FNF%=1", ""),
        ("110 FNEND", ""),
        ("RUNNH", answer),
    ];
    expect_at(rt, alloc, 2, &rows)
}

/// Fails unless the same is shown with each call made inside 64 levels that open so.
fn expect_deepest_run<R: Threads + Wait + Sync>(
    rt: &R,
    alloc: Global,
    calls: &str,
    opening: &str,
    answer: &str,
) -> Result<(), Fail> {
    let deepest = deepest_line(alloc, opening)?;
    expect_calls(rt, alloc, calls, deepest.as_str(), answer)
}

static DEEPEST: [(&str, &str, &str); 3] = [
    ("10 N%=32", "1+(", " 1768 \nReady\n"),
    ("10 N%=32", "A%(", " 2 \nReady\n"),
    ("10 N%=33", "A%(", "?Nested too deep at line 80\nReady\n"),
];

/// 32 calls run inside one another, each inside 64 levels.
#[test]
fn the_deepest_run_in_a_thread(rt: HostRuntime) -> Result<(), Fail> {
    for (calls, opening, answer) in DEEPEST.iter() {
        expect_deepest_run(&rt, rt.alloc(), calls, opening, answer)?;
    }
    Ok(())
}

static END_OF_KEYS: [Row<'static>; 7] = [
    LOGIN,
    ("10 ON ERROR GOTO 40", ""),
    ("20 READ A% : PRINT A% : GOTO 20", ""),
    ("30 DATA 7", ""),
    ("40 PRINT ERR : IF ERR=57% THEN RESUME 50 ELSE END", ""),
    ("50 INPUT A%", ""),
    ("RUNNH", " 7 \n 57 \n?  11 \nReady\n"),
];

#[test]
fn the_end_of_the_keys_is_an_error_of_input(rt: HostRuntime) -> Result<(), Fail> {
    expect_at(&rt, rt.alloc(), 1, &END_OF_KEYS)
}

/// An account of five calls, and a program that runs for ever.
const FIVE_CALLS: &[u8] = b"RSTS-DECK 1\nDISK 8\nACCOUNT 100,5 DEMO 5\nTERMINAL T1\n\
    >HELLO 100,5;DEMO\n>10 GOTO 10\n>RUNNH\nEND\n";

const FIVE_CALLS_REPORT: &[u8] =
    b"TERMINAL T1 58\nHELLO 100,5;DEMO\r\nReady\r\n10 GOTO 10\r\nRUNNH\r\n?Job expired\r\n\n\
    HISTORY 6\n0 LOGIN 100,5 44454d4f = DONE\n0 TICK = DONE\n0 TICK = DONE\n0 TICK = DONE\n\
    0 TICK = DONE\n0 TICK = EXPIRED\n";

#[test]
fn a_limit_of_five_calls(rt: HostRuntime) -> Result<(), Fail> {
    let want = good(FIVE_CALLS_REPORT);
    expect_call(&rt, rt.alloc(), &["run", "--history"], FIVE_CALLS, want)
}

/// Runs an input between ends in memory. The clause of what must come is no empty promise: here a
/// deck is run, unless memory or the sink's space runs out.
fn run_between_plain_ends<R: Threads + Wait + Sync>(
    rt: &R,
    alloc: Global,
    input: &[u8],
) -> Result<(Outcome, PlainSink), Fail>
    ensures { IfOk result (λ ended. (deck : Deck) → Spelled input.now deck
        → length input.now ≤ INPUT_LIMIT → ended.1.faults ≡ 0
        → RanOrLacked ended.0) }
{
    let mut words = Vec::new(alloc);
    words.push(String::from_str(alloc, "run")?)?;
    let mut source = PlainSource::new(alloc, input)?;
    let mut sink = PlainSink::new(alloc)?;
    let outcome = rsts_main(
        rt,
        alloc,
        words.as_slice(),
        &mut source,
        &mut sink,
        &IdlePacer,
    );
    Ok((outcome, sink))
}

#[test]
fn a_good_deck_between_ends_that_never_fail_is_run(rt: HostRuntime) -> Result<(), Fail> {
    let (outcome, sink) = run_between_plain_ends(&rt, rt.alloc(), FIRST_SUM)?;
    expect_left(&outcome, sink.bytes(), good(SUM_REPORT))
}
