//! Decks whose terminals type lines, each of which is given with what it shows.

use crate::calls::{expect_call, good};
use std::alloc::Global;
use std::sync::Wait;
use std::test::Fail;
use std::thread::Threads;

/// A line, and what it shows, with LF in place of CR LF on the screen.
pub(crate) type Row<'a> = (&'a str, &'a str);

/// A deck's lines before its terminals, and the rows of each terminal.
pub(crate) type System<'a> = (&'a str, &'a [&'a [Row<'a>]]);

/// A disk of 8 blocks with one account, and nothing on it.
pub(crate) const ONE_ACCOUNT: &str = "RSTS-DECK 1\nDISK 8\nACCOUNT 100,5 DEMO 100\n";

pub(crate) const LOGIN: Row<'static> = ("HELLO 100,5;DEMO", READY);

pub(crate) const READY: &str = "Ready\n";

pub(crate) const NO_FILE: &str = "?Can't find file or account\nReady\n";

pub(crate) const PROTECTED: &str = "?Protection violation\nReady\n";

/// Adds a text with CR LF in place of LF.
fn push_shown(screen: &mut Vec<u8>, text: &str) -> Result<(), Fail> {
    for byte in text.as_bytes() {
        if *byte == b'\n' {
            screen.push(b'\r')?;
        }
        screen.push(*byte)?;
    }
    Ok(())
}

/// Adds the keys of a row to a deck, and what is seen of it to the screen.
fn push_row(deck: &mut Vec<u8>, screen: &mut Vec<u8>, row: &Row<'_>) -> Result<(), Fail> {
    let (line, shown) = *row;
    deck.push(b'>')?;
    deck.extend_from_slice(line.as_bytes())?;
    deck.push(b'\n')?;
    push_shown(screen, line)?;
    push_shown(screen, "\n")?;
    push_shown(screen, shown)
}

/// Adds the keys of the rows to a deck, and returns the screen, to the end of the keys.
fn push_keys(alloc: Global, deck: &mut Vec<u8>, rows: &[Row<'_>]) -> Result<Vec<u8>, Fail> {
    let mut screen = Vec::new(alloc);
    for row in rows {
        push_row(deck, &mut screen, row)?;
    }
    push_shown(&mut screen, "Bye\n")?;
    Ok(screen)
}

/// Adds a terminal's screen to a report.
fn push_screen(
    alloc: Global,
    report: &mut Vec<u8>,
    number: usize,
    screen: &[u8],
) -> Result<(), Fail> {
    let count = screen.len();
    let told = format!(in alloc; "TERMINAL T{number} {count}\n")?;
    report.extend_from_slice(told.as_bytes())?;
    report.extend_from_slice(screen)?;
    report.push(b'\n')?;
    Ok(())
}

/// Adds the terminal of that number to a deck, and what it shows to the report.
fn push_terminal(
    alloc: Global,
    deck: &mut Vec<u8>,
    report: &mut Vec<u8>,
    number: usize,
    rows: &[Row<'_>],
) -> Result<(), Fail> {
    let head = format!(in alloc; "TERMINAL T{number}\n")?;
    deck.extend_from_slice(head.as_bytes())?;
    let screen = push_keys(alloc, deck, rows)?;
    push_screen(alloc, report, number, &screen)
}

/// Adds the terminals to a deck, and what they show to the report.
fn push_terminals(
    alloc: Global,
    deck: &mut Vec<u8>,
    report: &mut Vec<u8>,
    first: usize,
    terminals: &[&[Row<'_>]],
) -> Result<(), Fail> {
    let mut number = first;
    for rows in terminals {
        push_terminal(alloc, deck, report, number, rows)?;
        number = number.saturating_add(1);
    }
    deck.extend_from_slice(b"END\n")?;
    Ok(())
}

/// Returns the deck of a system, and its report. The first terminal has that number.
pub(crate) fn deck_and_report(
    alloc: Global,
    first: usize,
    system: &System<'_>,
) -> Result<(Vec<u8>, Vec<u8>), Fail> {
    let mut deck = system.0.as_bytes().to_vec(alloc)?;
    let mut report = Vec::new(alloc);
    push_terminals(alloc, &mut deck, &mut report, first, system.1)?;
    Ok((deck, report))
}

/// Fails unless the program writes this of a system whose first terminal has that number.
pub(crate) fn expect_system<R: Threads + Wait + Sync>(
    rt: &R,
    alloc: Global,
    first: usize,
    system: &System<'_>,
) -> Result<(), Fail> {
    let (deck, report) = deck_and_report(alloc, first, system)?;
    expect_call(rt, alloc, &["run"], &deck, good(&report))
}

/// Fails unless it writes the same of systems whose terminals are `T0` and so on.
pub(crate) fn expect_systems<R: Threads + Wait + Sync>(
    rt: &R,
    alloc: Global,
    systems: &[System<'_>],
) -> Result<(), Fail> {
    for system in systems {
        expect_system(rt, alloc, 0, system)?;
    }
    Ok(())
}

/// Returns the deck of this many terminals, `T1` and so on, that all type these rows, and its
/// report.
fn deck_and_report_of_alike(
    alloc: Global,
    count: usize,
    rows: &[Row<'_>],
) -> Result<(Vec<u8>, Vec<u8>), Fail> {
    let mut deck = ONE_ACCOUNT.as_bytes().to_vec(alloc)?;
    let mut report = Vec::new(alloc);
    for number in 1..=count {
        push_terminal(alloc, &mut deck, &mut report, number, rows)?;
    }
    deck.extend_from_slice(b"END\n")?;
    Ok((deck, report))
}

/// Fails unless the program shows this at each of this many terminals, `T1` and so on.
pub(crate) fn expect_at<R: Threads + Wait + Sync>(
    rt: &R,
    alloc: Global,
    count: usize,
    rows: &[Row<'_>],
) -> Result<(), Fail> {
    let (deck, report) = deck_and_report_of_alike(alloc, count, rows)?;
    expect_call(rt, alloc, &["run"], &deck, good(&report))
}
