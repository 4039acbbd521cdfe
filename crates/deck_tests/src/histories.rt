//! The texts of histories.

use crate::expects::expect_bytes;
use basic_values::errors::NO_SUCH_FILE;
use basic_values::{Fault, NoMemory, Series, Text};
use monitor_calls::{Account, Entry, Page, Reply, Request, Short};
use report_texts::push_history;
use std::alloc::{AllocError, Global};
use std::test::Fail;

fn push_entry(
    history: &mut Vec<Entry>,
    job: u32,
    request: Request,
    reply: Reply,
) -> Result<(), Fail> {
    history.push(Entry::new(job, request, reply))?;
    Ok(())
}

/// Appends a login that is refused.
fn push_login(history: &mut Vec<Entry>, text: &[u8]) -> Result<(), Fail> {
    let account = Account {
        project: 100,
        programmer: 5,
    };
    let Some(password) = Short::of(text) else {
        return Err(Fail::new("no short text"));
    };
    let request = Request::Login { account, password };
    push_entry(
        history,
        62,
        request,
        Reply::Failed(Fault::new(NO_SUCH_FILE)),
    )
}

/// Appends two refused logins, a Tick and a logout.
fn push_logins(history: &mut Vec<Entry>) -> Result<(), Fail> {
    push_login(history, b"")?;
    push_login(history, b"DEMO")?;
    push_entry(history, 0, Request::Tick, Reply::Expired)?;
    push_entry(history, 1, Request::Logout, Reply::Done)
}

/// Appends the text of an empty history, and that of these calls.
fn push_texts(out: &mut Vec<u8>, history: &[Entry]) -> Result<(), NoMemory> {
    push_history(out, &[])?;
    push_history(out, history)
}

/// Fails with these texts, unless they are this.
fn expect_texts(alloc: Global, history: &[Entry], want: &[u8]) -> Result<(), Fail> {
    let mut found = Vec::new(alloc);
    push_texts(&mut found, history)?;
    expect_bytes(found.as_slice(), want)
}

#[test]
fn each_call_has_a_line(rt: HostRuntime) -> Result<(), Fail> {
    let mut history = Vec::new(rt.alloc());
    push_logins(&mut history)?;
    let want = b"HISTORY 0\nHISTORY 4\n62 LOGIN 100,5 - = FAILED 5\n\
62 LOGIN 100,5 44454d4f = FAILED 5\n0 TICK = EXPIRED\n1 LOGOUT = DONE\n";
    expect_texts(rt.alloc(), history.as_slice(), want)
}

/// Returns a block of 512 times this letter.
fn page_of(alloc: Global, letter: u8) -> Result<Page, Fail> {
    let bytes = vec![in alloc; letter; 512]?;
    let mut page = Page::new(alloc)?;
    page.fill(&bytes);
    Ok(page)
}

/// Returns consecutive blocks, each of one letter.
fn pages(alloc: Global, letters: &[u8]) -> Result<Series<Page>, Fail> {
    let mut pages = Vec::new(alloc);
    for letter in letters {
        pages.push(page_of(alloc, *letter)?)?;
    }
    Ok(Series::from_vec(pages))
}

fn push_reading(history: &mut Vec<Entry>, alloc: Global, letters: &[u8]) -> Result<(), Fail> {
    let pages = pages(alloc, letters)?;
    let request = Request::GetRecord {
        channel: 1,
        block: 2,
        count: 3,
    };
    push_entry(history, 0, request, Reply::Record(pages))
}

/// Appends a write of such blocks, which is done if there are any.
fn push_writing(history: &mut Vec<Entry>, alloc: Global, letters: &[u8]) -> Result<(), Fail> {
    let pages = pages(alloc, letters)?;
    let request = Request::PutRecord {
        channel: 12,
        block: 65535,
        pages,
    };
    let reply = if letters.is_empty() {
        Reply::Failed(Fault::new(31))
    } else {
        Reply::Done
    };
    push_entry(history, 62, request, reply)
}

/// Appends a record of two blocks that is read, one that is written, and one of no block.
fn push_records(history: &mut Vec<Entry>, alloc: Global) -> Result<(), Fail> {
    push_reading(history, alloc, b"Ab")?;
    push_writing(history, alloc, b"z")?;
    push_writing(history, alloc, b"")
}

fn push_times(out: &mut Vec<u8>, signs: &[u8], times: u32) -> Result<(), AllocError> {
    for _ in 0..times {
        out.extend_from_slice(signs)?;
    }
    Ok(())
}

/// Parts of a text, each with a number of repetitions.
static RECORDS: [(&[u8], u32); 6] = [
    (b"HISTORY 0\nHISTORY 3\n0 GETREC 1 2 3 = RECORD ", 1),
    (b"41", 512),
    (b"62", 512),
    (b"\n62 PUTREC 12 65535 ", 1),
    (b"7a", 512),
    (b" = DONE\n62 PUTREC 12 65535 - = FAILED 31\n", 1),
];

fn push_parts(out: &mut Vec<u8>, parts: &[(&[u8], u32)]) -> Result<(), AllocError> {
    for (signs, times) in parts {
        push_times(out, signs, *times)?;
    }
    Ok(())
}

/// Fails unless the texts are the parts.
fn expect_parts(alloc: Global, history: &[Entry], parts: &[(&[u8], u32)]) -> Result<(), Fail> {
    let mut want = Vec::new(alloc);
    push_parts(&mut want, parts)?;
    expect_texts(alloc, history, want.as_slice())
}

#[test]
fn a_record_is_one_run_of_signs(rt: HostRuntime) -> Result<(), Fail> {
    let mut history = Vec::new(rt.alloc());
    push_records(&mut history, rt.alloc())?;
    expect_parts(rt.alloc(), history.as_slice(), &RECORDS)
}

fn push_printing(history: &mut Vec<Entry>, alloc: Global, text: &[u8]) -> Result<(), Fail> {
    match Text::of(alloc, text) {
        Ok(text) => push_entry(history, 0, Request::Print { text }, Reply::Done),
        Err(_) => Err(Fail::new("no text")),
    }
}

/// Appends each call of the printer, by one job.
fn push_listing(history: &mut Vec<Entry>, alloc: Global) -> Result<(), Fail> {
    push_entry(history, 0, Request::Assign, Reply::Done)?;
    push_entry(history, 0, Request::OpenPrinter, Reply::Done)?;
    push_printing(history, alloc, b"HI")?;
    push_printing(history, alloc, b"")?;
    push_entry(history, 0, Request::ClosePrinter, Reply::Done)?;
    push_entry(history, 0, Request::Deassign, Reply::Expired)
}

#[test]
fn each_call_of_the_printer_has_a_line(rt: HostRuntime) -> Result<(), Fail> {
    let mut history = Vec::new(rt.alloc());
    push_listing(&mut history, rt.alloc())?;
    let want = b"HISTORY 0\nHISTORY 6\n0 ASSIGN = DONE\n0 LPOPEN = DONE\n0 LPPRINT 4849 = DONE\n\
0 LPPRINT - = DONE\n0 LPCLOSE = DONE\n0 DEASSIGN = EXPIRED\n";
    expect_texts(rt.alloc(), history.as_slice(), want)
}
