//! The replay: a deck with a history after it, checked once more.

use crate::calls::*;
use crate::runs::TWO;
use std::alloc::Global;
use std::sync::Wait;
use std::test::Fail;
use std::thread::Threads;
use terminal_runner::IdlePacer;

/// The text after a deck, and the line that is reported of it.
type Disputed = (&'static str, &'static str);

/// Returns these pieces, one after another.
fn joined(alloc: Global, pieces: &[&[u8]]) -> Result<Vec<u8>, Fail> {
    let mut bytes = Vec::new(alloc);
    for piece in pieces {
        bytes.extend_from_slice(piece)?;
    }
    Ok(bytes)
}

/// Fails unless a replay of these pieces, over ends of which the sink fails at the listed calls,
/// leaves this.
fn expect_replay<R: Threads + Wait + Sync>(
    rt: &R,
    alloc: Global,
    pieces: &[&[u8]],
    failing_gifts: &[u64],
    want: Want<'_>,
) -> Result<(), Fail> {
    let input = joined(alloc, pieces)?;
    expect_between(rt, alloc, &["replay"], &input, (&[], failing_gifts), want)
}

/// Fails unless the replay of a text after a deck reports this line.
fn expect_told<R: Threads + Wait + Sync>(
    rt: &R,
    alloc: Global,
    deck: &[u8],
    text: &str,
    line: &str,
) -> Result<(), Fail> {
    let pieces = [deck, text.as_bytes()];
    expect_replay(rt, alloc, &pieces, &[], refused(7, line))
}

fn expect_disputed<R: Threads + Wait + Sync>(
    rt: &R,
    alloc: Global,
    deck: &[u8],
    rows: &[Disputed],
) -> Result<(), Fail> {
    for (text, line) in rows {
        expect_told(rt, alloc, deck, text, line)?;
    }
    Ok(())
}

/// Returns what a run of a deck writes: its report, and the text of its history.
fn run_told<R: Threads + Wait + Sync>(rt: &R, alloc: Global, deck: &[u8]) -> Result<String, Fail> {
    let asked = ["run", "--history"];
    let (_, sink) = answered(rt, alloc, &asked, deck, &[], &[], &IdlePacer)?;
    Ok(String::from_utf8(sink.bytes().to_vec(alloc)?)?)
}

/// The word before the number of entries.
const HISTORY: &str = "HISTORY ";

/// Fails unless a run that was written with its history is replayed, and gives the same report.
fn expect_retold<R: Threads + Wait + Sync>(rt: &R, alloc: Global, deck: &[u8]) -> Result<(), Fail> {
    let told = run_told(rt, alloc, deck)?;
    match told.as_str().split_once(HISTORY) {
        Some((report, entries)) => {
            let pieces = [deck, HISTORY.as_bytes(), entries.as_bytes()];
            expect_replay(rt, alloc, &pieces, &[], good(report.as_bytes()))
        }
        None => Err("no history was written")?,
    }
}

const SUM_TEXT: &[u8] = b"HISTORY 2\n0 LOGIN 100,5 44454d4f = DONE\n0 LOGOUT = DONE\n";

#[test]
fn a_history_of_a_run_is_replayed(rt: HostRuntime) -> Result<(), Fail> {
    expect_replay(
        &rt,
        rt.alloc(),
        &[FIRST_SUM, SUM_TEXT],
        &[],
        good(SUM_REPORT),
    )
}

/// Texts after the eight lines of the first deck.
static DISPUTED: [Disputed; 13] = [
    (
        "HISTORY 2\n0 LOGIN 100,5 44454d4f = FAILED 5\n0 LOGOUT = DONE\n",
        "history line 10: reply differs",
    ),
    (
        "HISTORY 2\n0 LOGIN 100,5 44454d4f = DONE\n0 TICK = DONE\n",
        "history line 11: request differs",
    ),
    (
        "HISTORY 1\n0 LOGIN 100,5 44454d4f = DONE\n",
        "history line 11: request differs",
    ),
    (
        "HISTORY 2\n0 LOGIN 100,5 44454d4f = DONE\n",
        "history line 11: wrong form",
    ),
    (
        "HISTORY 2\n1 LOGIN 100,5 44454d4f = DONE\n0 LOGOUT = DONE\n",
        "history line 10: reply differs",
    ),
    ("", "history line 9: wrong form"),
    // Two entries exchanged; a request with one bit changed, and a reply; the first entry left out.
    (
        "HISTORY 2\n0 LOGOUT = DONE\n0 LOGIN 100,5 44454d4f = DONE\n",
        "history line 10: request differs",
    ),
    (
        "HISTORY 2\n0 LOGIN 100,5 44454d4e = FAILED 5\n0 LOGOUT = DONE\n",
        "history line 10: request differs",
    ),
    (
        "HISTORY 2\n0 LOGIN 100,5 44454d4f = DONE\n0 LOGOUT = DOND\n",
        "history line 11: wrong form",
    ),
    (
        "HISTORY 1\n0 LOGOUT = DONE\n",
        "history line 10: request differs",
    ),
    // An entry added, in the middle and at the end; a line added.
    (
        "HISTORY 3\n0 LOGIN 100,5 44454d4f = DONE\n0 TICK = DONE\n0 LOGOUT = DONE\n",
        "history line 11: request differs",
    ),
    (
        "HISTORY 3\n0 LOGIN 100,5 44454d4f = DONE\n0 LOGOUT = DONE\n0 LOGOUT = DONE\n",
        "history line 12: request differs",
    ),
    (
        "HISTORY 2\n0 LOGIN 100,5 44454d4f = DONE\n0 LOGOUT = DONE\n0 LOGOUT = DONE\n",
        "history line 12: wrong form",
    ),
];

#[test]
fn a_disputed_history_is_told_its_line_and_cause(rt: HostRuntime) -> Result<(), Fail> {
    expect_disputed(&rt, rt.alloc(), FIRST_SUM, &DISPUTED)
}

/// Texts after the eleven lines of a deck of two terminals: one left out of the middle and one of
/// the end, a history of another deck, and two terminals that both depart.
static DISPUTED_OF_TWO: [Disputed; 4] = [
    (
        "HISTORY 3\n0 LOGIN 100,5 44454d4f = DONE\n0 LOGOUT = DONE\n1 LOGOUT = DONE\n",
        "history line 15: request differs",
    ),
    (
        "HISTORY 3\n1 LOGIN 1,2 535953 = DONE\n0 LOGIN 100,5 44454d4f = DONE\n0 LOGOUT = DONE\n",
        "history line 16: request differs",
    ),
    (
        "HISTORY 2\n0 LOGIN 200,5 44454d4f = DONE\n0 LOGOUT = DONE\n",
        "history line 13: reply differs",
    ),
    (
        "HISTORY 3\n1 LOGOUT = DONE\n0 LOGIN 100,5 44454d4f = DONE\n0 TICK = DONE\n",
        "history line 15: request differs",
    ),
];

#[test]
fn the_first_terminal_that_departs_is_told(rt: HostRuntime) -> Result<(), Fail> {
    expect_disputed(&rt, rt.alloc(), TWO, &DISPUTED_OF_TWO)
}

/// Inputs whose deck's part is rejected.
static NO_DECKS: [Disputed; 4] = [
    ("", "deck line 1: input ends early"),
    (
        "RSTS-DECK 1\nDISK 8\nTERMINAL T1\n>BYE\nHISTORY 0\n",
        "deck line 5: wrong form",
    ),
    ("RSTS-DECK 1\nDISK 8\nEND", "deck line 3: input ends early"),
    (
        "RSTS-DECK 1\nDISK 007\nEND\nHISTORY 0\n",
        "deck line 2: wrong form",
    ),
];

#[test]
fn an_input_without_a_deck_is_judged_as_one(rt: HostRuntime) -> Result<(), Fail> {
    for (input, line) in NO_DECKS.iter() {
        expect_call(
            &rt,
            rt.alloc(),
            &["replay"],
            input.as_bytes(),
            refused(2, line),
        )?;
    }
    Ok(())
}

/// A deck whose lines have a CR before their LF.
const RETURNS: &[u8] = b"RSTS-DECK 1\r\nDISK 8\r\nTERMINAL T1\r\nEND\r\n";

#[test]
fn a_deck_ends_behind_a_line_end_with_a_return(rt: HostRuntime) -> Result<(), Fail> {
    let want = good(b"TERMINAL T1 0\n\n");
    expect_replay(&rt, rt.alloc(), &[RETURNS, b"HISTORY 0\n"], &[], want)
}

#[test]
fn a_second_end_belongs_to_the_text(rt: HostRuntime) -> Result<(), Fail> {
    let want = refused(7, "history line 5: wrong form");
    expect_replay(&rt, rt.alloc(), &[RETURNS, b"END\nHISTORY 0\n"], &[], want)
}

#[test]
fn a_replay_whose_sink_fails_writes_a_front(rt: HostRuntime) -> Result<(), Fail> {
    let want = refused(5, "write fault");
    expect_replay(&rt, rt.alloc(), &[FIRST_SUM, SUM_TEXT], &[1], want)
}

#[test]
fn a_replay_whose_source_fails_writes_nothing(rt: HostRuntime) -> Result<(), Fail> {
    let want = refused(3, "read fault");
    expect_between(&rt, rt.alloc(), &["replay"], FIRST_SUM, (&[1], &[]), want)
}

/// The keys of a terminal of the drill.
const COUNTS: &[u8] = b">HELLO 100,5;DEMO\n>10 ON ERROR GOTO 100\n\
>20 OPEN \"COUNT.DAT\" AS FILE 1%, MODE 1%\n>30 FIELD #1%, 2% AS C$\n>40 FOR I%=1% TO 20%\n\
>50 GET #1%, RECORD 1%\n>60 LSET C$=CVT%$(CVT$%(C$)+1%)\n>70 PUT #1%, RECORD 1%\n>80 NEXT I%\n\
>90 CLOSE 1% : GOTO 130\n>100 IF ERR<>19% THEN ON ERROR GOTO 0\n\
>110 K%=0% : K%=K%+1% WHILE K%<1000%\n>120 SLEEP 1% : RESUME\n>130 END\n>RUNNH\n>BYE\n";

/// Returns the deck of a drill of two terminals.
fn drill_of_two(alloc: Global) -> Result<Vec<u8>, Fail> {
    let front = b"RSTS-DECK 1\nDISK 8\nACCOUNT 100,5 DEMO 16384\n\
         FILE [100,5]COUNT.DAT<60> 1\nTERMINAL T1\n";
    joined(alloc, &[front, COUNTS, b"TERMINAL T2\n", COUNTS, b"END\n"])
}

#[test]
fn a_run_of_two_terminals_is_replayed(rt: HostRuntime) -> Result<(), Fail> {
    expect_retold(&rt, rt.alloc(), TWO)
}

#[test]
fn a_drill_of_two_terminals_is_replayed(rt: HostRuntime) -> Result<(), Fail> {
    let drill = drill_of_two(rt.alloc())?;
    expect_retold(&rt, rt.alloc(), &drill)
}

/// Fails unless a changed page is found: the first page that was read had zeros alone, and here its
/// first byte is 1.
fn expect_missed<R: Threads + Wait + Sync>(
    rt: &R,
    alloc: Global,
    deck: &[u8],
    told: &str,
) -> Result<(), Fail> {
    let entries = match told.split_once(HISTORY) {
        Some((_, entries)) => entries,
        None => return Err("no history was written")?,
    };
    let (front, behind) = match entries.split_once("BLOCK 00") {
        Some(parts) => parts,
        None => return Err("no page was read")?,
    };
    let line = front.lines().count().saturating_add(39);
    let told = format!(in alloc; "history line {line}: reply differs")?;
    let changed = [
        deck,
        HISTORY.as_bytes(),
        front.as_bytes(),
        b"BLOCK 01",
        behind.as_bytes(),
    ];
    expect_replay(rt, alloc, &changed, &[], refused(7, told.as_str()))
}

#[test]
fn one_bit_of_a_page_that_was_read_is_missed(rt: HostRuntime) -> Result<(), Fail> {
    let drill = drill_of_two(rt.alloc())?;
    let told = run_told(&rt, rt.alloc(), &drill)?;
    expect_missed(&rt, rt.alloc(), &drill, &told)
}
