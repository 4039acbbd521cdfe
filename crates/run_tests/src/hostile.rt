//! Programs that ask for more than there is, and a file that is denied to a stranger.

use crate::pacing::{Hold, expect_ordered};
use crate::screens::{LOGIN, ONE_ACCOUNT, System, expect_at, expect_system};
use std::alloc::Global;
use std::sync::Wait;
use std::test::Fail;
use std::thread::Threads;
use std::time::Clock;

/// A disk of one block.
const ONE_BLOCK: &str = "RSTS-DECK 1\nDISK 1\nACCOUNT 100,5 DEMO 100\n";

static PROGRAMS: [System<'static>; 6] = [
    (
        ONE_ACCOUNT,
        &[&[
            LOGIN,
            ("10 GOSUB 10", ""),
            ("RUNNH", "?Nested too deep at line 10\nReady\n"),
        ]],
    ),
    (
        ONE_ACCOUNT,
        &[&[
            LOGIN,
            ("10 A$=SPACE$(32767%)", ""),
            ("20 A$=A$+'X'", ""),
            ("RUNNH", "?String too long at line 20\nReady\n"),
        ]],
    ),
    (
        ONE_ACCOUNT,
        &[&[
            LOGIN,
            ("10 DIM A%(32767%),B%(32767%),C%(32767%),D%(32767%)", ""),
            ("20 X%=1%", ""),
            ("RUNNH", "?Maximum memory exceeded at line 20\nReady\n"),
        ]],
    ),
    (
        ONE_ACCOUNT,
        &[&[
            LOGIN,
            ("10 PRINT FNA%(1%)", ""),
            ("RUNNH", "?Undefined function at line 10\nReady\n"),
        ]],
    ),
    (
        ONE_ACCOUNT,
        &[&[
            LOGIN,
            ("10 RESUME", ""),
            ("RUNNH", "?RESUME and no error at line 10\nReady\n"),
        ]],
    ),
    (
        ONE_BLOCK,
        &[&[
            LOGIN,
            ("10 OPEN 'A' FOR OUTPUT AS FILE 1%", ""),
            ("20 PUT #1%, RECORD 2%", ""),
            ("RUNNH", "?No room for user on device at line 20\nReady\n"),
        ]],
    ),
];

/// Returns PRINT of a number in this many parentheses.
fn print_in_parentheses(alloc: Global, levels: usize) -> Result<String, Fail> {
    let mut line = String::from_str(alloc, "PRINT ")?;
    for _ in 0..levels {
        line.push_str("(")?;
    }
    line.push_str("1%")?;
    for _ in 0..levels {
        line.push_str(")")?;
    }
    Ok(line)
}

#[test]
fn hostile_programs_are_met_by_a_named_answer(rt: HostRuntime) -> Result<(), Fail> {
    for program in PROGRAMS.iter() {
        expect_system(&rt, rt.alloc(), 1, program)?;
    }
    let line = print_in_parentheses(rt.alloc(), 65)?;
    let rows = [LOGIN, (line.as_str(), "?Expression too deep\nReady\n")];
    expect_at(&rt, rt.alloc(), 1, &rows)
}

/// The owner of a file reads, writes and locks its block; a stranger opens it, asks for the catalog
/// of its owner, and prints.
const FRONT: &str = "RSTS-DECK 1\nDISK 8\nACCOUNT 100,5 OWN 100\nACCOUNT 100,6 OTHER 100\n\
FILE [100,5]S<60> 1\n";

const KEYS: &str = "TERMINAL T1\n>HELLO 100,5;OWN\n>OPEN 'S' AS FILE 1%, MODE 1%\n\
>GET #1%, RECORD 1%\n>PUT #1%, RECORD 1%\n>GET #1%, RECORD 1%\n>BYE\n\
TERMINAL T2\n>HELLO 100,6;OTHER\n>OPEN '[100,5]S' AS FILE 1%\n>CAT [100,5]\n>PRINT 2%+3%\n\
>BYE\nEND\n";

const OWNER: &str = "HELLO 100,5;OWN\r\nReady\r\nOPEN 'S' AS FILE 1%, MODE 1%\r\nReady\r\n\
GET #1%, RECORD 1%\r\nReady\r\nPUT #1%, RECORD 1%\r\nReady\r\nGET #1%, RECORD 1%\r\nReady\r\n\
BYE\r\nBye\r\n";

const STRANGER: &str = "HELLO 100,6;OTHER\r\nReady\r\nOPEN '[100,5]S' AS FILE 1%\r\n\
?Protection violation\r\nReady\r\nCAT [100,5]\r\nS     .        -  <60>\r\nReady\r\n\
PRINT 2%+3%\r\n 5 \r\nReady\r\nBYE\r\nBye\r\n";

/// The stranger opens while the owner has the lock, and the owner goes when the stranger has seen
/// all.
const HOLDS: &[Hold] = &[
    Hold {
        job: 1,
        call: 2,
        other: 0,
        answered: 5,
    },
    Hold {
        job: 0,
        call: 6,
        other: 1,
        answered: 4,
    },
];

/// Runs the two terminals over a file of that text, and fails unless this is written.
fn expect_over<R: Threads + Wait + Clock + Sync>(
    rt: &R,
    alloc: Global,
    text: &str,
    want: &str,
) -> Result<(), Fail> {
    let deck = format!(in alloc; "{FRONT}>{text}\n{KEYS}")?;
    let want = want.as_bytes();
    expect_ordered(rt, alloc, &["run"], deck.as_bytes(), 2, HOLDS, want)
}

/// The text of the file changes nothing that anyone is shown.
#[test]
fn a_stranger_is_shown_the_same_of_two_texts(rt: HostRuntime) -> Result<(), Fail> {
    let (owner, stranger) = (OWNER.len(), STRANGER.len());
    let want = format!(in rt.alloc();
        "TERMINAL T1 {owner}\n{OWNER}\nTERMINAL T2 {stranger}\n{STRANGER}\n"
    )?;
    expect_over(&rt, rt.alloc(), "THE ONE", &want)?;
    expect_over(&rt, rt.alloc(), "ANOTHER TEXT", &want)
}
