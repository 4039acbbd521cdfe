//! The reading of histories.

use crate::expects::expect_row;
use basic_values::Trouble;
use history_reader::read_history;
use monitor_calls::Entry;
use report_texts::push_history;
use std::alloc::{AllocError, Global};
use std::test::Fail;

/// Some lines of a text and how many of its whole lines begin that of a history.
type Row = (&'static [u8], usize);

/// Returns whether the text is that of this history.
fn is_text_of(alloc: Global, history: &[Entry], text: &[u8]) -> bool {
    let mut again = Vec::new(alloc);
    push_history(&mut again, history).is_ok() && again.as_slice() == text
}

/// Returns whether a history is read of the text, and its text is this one.
fn is_read_back(alloc: Global, text: &[u8]) -> bool {
    match read_history(alloc, text) {
        Ok(history) => is_text_of(alloc, history.as_slice(), text),
        Err(_) => false,
    }
}

/// Returns after how many lines the text is rejected.
fn refusal(alloc: Global, text: &[u8]) -> Option<usize> {
    match read_history(alloc, text) {
        Err(Trouble::Refused(good)) => Some(good),
        _ => None,
    }
}

/// Returns whether a text of this line is read as it was written, or is rejected after its first
/// line.
fn is_answered(alloc: Global, line: &[u8], is_read: bool) -> bool {
    match [b"HISTORY 1\n".as_slice(), line, b"\n"].concat(alloc) {
        Ok(text) if is_read => is_read_back(alloc, text.as_slice()),
        Ok(text) => refusal(alloc, text.as_slice()) == Some(1),
        Err(_) => false,
    }
}

/// Fails with the first line that is answered otherwise.
fn expect_answers(alloc: Global, lines: &[&[u8]], is_read: bool) -> Result<(), Fail> {
    for place in 0..lines.len() {
        expect_row(
            "the lines",
            place,
            is_answered(alloc, lines[place], is_read),
        )?;
    }
    Ok(())
}

/// Fails with the first text that is rejected at another line, or not rejected.
fn expect_refusals(alloc: Global, rows: &[Row]) -> Result<(), Fail> {
    for place in 0..rows.len() {
        let (text, good) = rows[place];
        expect_row("the texts", place, refusal(alloc, text) == Some(good))?;
    }
    Ok(())
}

/// Each request and each reply except those of blocks, at the ends of their types.
static WRITTEN: [&[u8]; 33] = [
    b"0 LOGIN 1,2 - = FAILED 5",
    b"62 LOGIN 255,0 44454d6f = DONE",
    b"4294967295 LOGOUT = DONE",
    b"0 OPEN 12 [1,2]A.BAS INPUT 0 - = OPENED 65535 1 0",
    b"0 OPEN 255 [255,255]abcdef.XyZ123 OUTPUT 1 63 = OPENED 0 0 1",
    b"0 OPEN 0 [0,0] EITHER 0 255 = FAILED 255",
    b"0 OPEN 0 [0,0].1 FRESH 1 0 = EXPIRED",
    b"1 CLOSE 1 = DONE",
    b"1 GET 1 65535 = FAILED 11",
    b"1 GETREC 1 1 3 = RECORD -",
    b"1 PUTREC 1 1 - = DONE",
    b"1 UNLOCK 0 = DONE",
    b"1 KILL [1,2]A = DONE",
    b"1 RENAME [1,2]A [1,2]B.C 40 = DONE",
    b"1 RENAME [1,2]A [1,2]B - = FAILED 16",
    b"1 DIRECTORY 1,2 7 = NAME [1,2]A.BAS 60 -",
    b"1 DIRECTORY 1,2 65535 = NAME [1,2]A 0 65535",
    b"1 DECLARE Clerk 32 = DONE",
    b"1 DECLARE - 0 = FAILED 4",
    b"1 REMOVE = DONE",
    b"1 SEND CLERK 00ff = DONE",
    b"1 SEND - - = FAILED 5",
    b"1 RECEIVE = MESSAGE 4294967295 1,2 68",
    b"1 RECEIVE = MESSAGE 0 255,255 -",
    b"1 SLEEP 65535 = DONE",
    b"1 TICK = EXPIRED",
    b"1 ASSIGN = DONE",
    b"1 DEASSIGN = DONE",
    b"1 LPOPEN = DONE",
    b"1 LPPRINT 4849 = DONE",
    b"1 LPPRINT - = DONE",
    b"1 LPCLOSE = DONE",
    b"1 STATUS = STATE 0 1,2 65535",
];

fn written() -> &'static [&'static [u8]] {
    &WRITTEN
}

#[test]
fn each_entry_is_read_back(rt: HostRuntime) -> Result<(), Fail> {
    expect_answers(rt.alloc(), written(), true)
}

/// Lines that are wrong in one way each.
static BROKEN: [&[u8]; 126] = [
    b"",
    b"0",
    b"0 ",
    b"0 TICK",
    b"0 TICK =",
    b"0 TICK = ",
    b"TICK = DONE",
    b" 0 TICK = DONE",
    b"0 TICK = DONE ",
    b"0  TICK = DONE",
    b"0 TICK  = DONE",
    b"0 TICK =  DONE",
    b"0 TICK DONE",
    b"0 TICK - DONE",
    b"0 TICK = DONE = DONE",
    b"0 TICK = DONE\r",
    b"00 TICK = DONE",
    b"01 TICK = DONE",
    b"+1 TICK = DONE",
    b"4294967296 TICK = DONE",
    b"x TICK = DONE",
    b"0 tick = DONE",
    b"0 TICK = done",
    b"0 TICKS = DONE",
    b"0 TICK 1 = DONE",
    b"0 TICK = DONE 1",
    b"0 TICK = EXPIRED 1",
    b"0 LOGIN 1,2 = DONE",
    b"0 LOGIN 1,2 - - = DONE",
    b"0 LOGIN 12 - = DONE",
    b"0 LOGIN 1,2,3 - = DONE",
    b"0 LOGIN 01,2 - = DONE",
    b"0 LOGIN 1,02 - = DONE",
    b"0 LOGIN 256,2 - = DONE",
    b"0 LOGIN 1,256 - = DONE",
    b"0 LOGIN ,2 - = DONE",
    b"0 LOGIN 1, - = DONE",
    b"0 LOGIN [1,2] - = DONE",
    b"0 LOGIN 1,2 4 = DONE",
    b"0 LOGIN 1,2 444 = DONE",
    b"0 LOGIN 1,2 4A = DONE",
    b"0 LOGIN 1,2 4g = DONE",
    b"0 LOGIN 1,2 41424344454647 = DONE",
    b"0 LOGIN 1,2 2e = DONE",
    b"0 LOGIN 1,2  = DONE",
    b"0 OPEN 1 [1,2]A INPUT 0 = DONE",
    b"0 OPEN 256 [1,2]A INPUT 0 - = DONE",
    b"0 OPEN 01 [1,2]A INPUT 0 - = DONE",
    b"0 OPEN 1 1,2]A INPUT 0 - = DONE",
    b"0 OPEN 1 [1,2A INPUT 0 - = DONE",
    b"0 OPEN 1 [12]A INPUT 0 - = DONE",
    b"0 OPEN 1 [1,2]ABCDEFG INPUT 0 - = DONE",
    b"0 OPEN 1 [1,2]A. INPUT 0 - = DONE",
    b"0 OPEN 1 [1,2]A.B.C INPUT 0 - = DONE",
    b"0 OPEN 1 [1,2]A_ INPUT 0 - = DONE",
    b"0 OPEN 1 [1,2]A.1234567 INPUT 0 - = DONE",
    b"0 OPEN 1 [1,2]A input 0 - = DONE",
    b"0 OPEN 1 [1,2]A READ 0 - = DONE",
    b"0 OPEN 1 [1,2]A INPUT 2 - = DONE",
    b"0 OPEN 1 [1,2]A INPUT 00 - = DONE",
    b"0 OPEN 1 [1,2]A INPUT true - = DONE",
    b"0 OPEN 1 [1,2]A INPUT 0 256 = DONE",
    b"0 OPEN 1 [1,2]A INPUT 0 07 = DONE",
    b"0 OPEN 1 [1,2]A INPUT 0 -- = DONE",
    b"0 OPEN 1 [1,2]A INPUT 0 - 1 = DONE",
    b"0 CLOSE = DONE",
    b"0 CLOSE 256 = DONE",
    b"0 CLOSE 1 1 = DONE",
    b"0 GET 1 = DONE",
    b"0 GET 1 65536 = DONE",
    b"0 GET 1 01 = DONE",
    b"0 GET 256 1 = DONE",
    b"0 PUT 1 1 - = DONE",
    b"0 PUT 1 1 00 = DONE",
    b"0 PUT 1 1 = DONE",
    b"0 GETREC 1 1 256 = DONE",
    b"0 GETREC 1 65536 1 = DONE",
    b"0 GETREC 1 1 = DONE",
    b"0 PUTREC 1 1 00 = DONE",
    b"0 PUTREC 1 1 = DONE",
    b"0 UNLOCK - = DONE",
    b"0 KILL = DONE",
    b"0 KILL A = DONE",
    b"0 RENAME [1,2]A [1,2]B = DONE",
    b"0 RENAME A [1,2]B - = DONE",
    b"0 RENAME [1,2]A B - = DONE",
    b"0 RENAME [1,2]A [1,2]B x = DONE",
    b"0 DIRECTORY 1,2 65536 = DONE",
    b"0 DIRECTORY 1 2 = DONE",
    b"0 DECLARE A 256 = DONE",
    b"0 DECLARE A_B 1 = DONE",
    b"0 DECLARE ABCDEFG 1 = DONE",
    b"0 DECLARE  1 = DONE",
    b"0 SEND A = DONE",
    b"0 SEND A 0 = DONE",
    b"0 SEND A - - = DONE",
    b"0 SEND A FF = DONE",
    b"0 SLEEP 65536 = DONE",
    b"0 SLEEP -1 = DONE",
    b"0 SLEEP = DONE",
    b"0 LPPRINT = DONE",
    b"0 LPPRINT 4 = DONE",
    b"0 TICK = OPENED 1 1",
    b"0 TICK = OPENED 65536 1 1",
    b"0 TICK = OPENED 1 2 1",
    b"0 TICK = OPENED 1 1 2",
    b"0 TICK = BLOCK -",
    b"0 TICK = BLOCK 00",
    b"0 TICK = RECORD 00",
    b"0 TICK = RECORD",
    b"0 TICK = NAME [1,2]A 256 -",
    b"0 TICK = NAME [1,2]A 1 65536",
    b"0 TICK = NAME A 1 -",
    b"0 TICK = NAME [1,2]A 1",
    b"0 TICK = MESSAGE 4294967296 1,2 -",
    b"0 TICK = MESSAGE 1 1 -",
    b"0 TICK = MESSAGE 1 1,2 0",
    b"0 TICK = MESSAGE 1 1,2",
    b"0 TICK = STATE 1 1,2 65536",
    b"0 TICK = STATE 1 1,2",
    b"0 TICK = STATE x 1,2 1",
    b"0 TICK = FAILED",
    b"0 TICK = FAILED 256",
    b"0 TICK = FAILED 05",
    b"0 TICK = FAILED -",
    b"0 TICK = FAILED 5 5",
];

fn broken() -> &'static [&'static [u8]] {
    &BROKEN
}

#[test]
fn each_broken_line_is_refused(rt: HostRuntime) -> Result<(), Fail> {
    expect_answers(rt.alloc(), broken(), false)
}

/// Texts that are no history's.
static TEXTS: [Row; 37] = [
    (b"", 0),
    (b"HISTORY 0", 0),
    (b"HISTORY 0\n0 TICK = DONE\n", 1),
    (b"HISTORY 0\n\n", 1),
    (b"HISTORY 0\nx", 1),
    (b"HISTORY 01\n0 TICK = DONE\n", 0),
    (b"HISTORY \n", 0),
    (b"HISTORY\n", 0),
    (b"HISTORY  0\n", 0),
    (b"HISTORY 0 \n", 0),
    (b"HISTORY 0\r\n", 0),
    (b"HISTORY -1\n", 0),
    (b"HISTORY x\n", 0),
    (b"history 0\n", 0),
    (b"\n", 0),
    (b"\nHISTORY 0\n", 0),
    (b"HISTORY 1\n", 1),
    (b"HISTORY 1\n0 TICK = DONE", 1),
    (b"HISTORY 1\n0 TICK = DONE\n0 TICK = DONE\n", 2),
    (b"HISTORY 1\n0 TICK = DONE\n\n", 2),
    (b"HISTORY 1\n0 TICK = DONE\n0", 2),
    (b"HISTORY 2\n0 TICK = DONE\n", 2),
    (b"HISTORY 2\n0 TICK = DONE\n0 TICK = DONE", 2),
    (b"HISTORY 2\n0 TICK = DONE\n0 TICK\n0 TICK = DONE\n", 2),
    (
        b"HISTORY 3\n0 TICK = DONE\n0 TICK = DONE\n0 TICK = DONE \n",
        3,
    ),
    (b"HISTORY 99999999999999999999999999\n0 TICK = DONE\n", 2),
    (
        b"HISTORY 1000000000000000000000000000000000000000000000000000000000000000\n",
        1,
    ),
    // 64 digits that begin with zeros, and 65 digits that do not.
    (
        b"HISTORY 0000000000000000000000000000000000000000000000000000000000000001\n\
          0 TICK = DONE\n",
        0,
    ),
    (
        b"HISTORY 10000000000000000000000000000000000000000000000000000000000000000\n",
        1,
    ),
    (
        b"HISTORY 10000000000000000000000000000000000000000000000000000000000000000\n\
          0 TICK = DONE\n",
        2,
    ),
    (b"HISTORY *", 0),
    (b"HISTORY **\n", 0),
    (b"HISTORY *1\n", 0),
    (b"HISTORY * \n", 0),
    (b"HISTORY *\r\n", 0),
    (b"HISTORY *\n0 TICK = DONE", 1),
    (b"HISTORY *\n0 TICK = DONE\n\n", 2),
];

fn texts() -> &'static [Row] {
    &TEXTS
}

#[test]
fn a_text_is_refused_behind_its_good_lines(rt: HostRuntime) -> Result<(), Fail> {
    expect_refusals(rt.alloc(), texts())
}

/// Journals, of which each is cut from the last, and the counted texts of the same histories.
static JOURNALS: [(&[u8], &[u8]); 3] = [
    (b"HISTORY *\n", b"HISTORY 0\n"),
    (b"HISTORY *\n0 TICK = DONE\n", b"HISTORY 1\n0 TICK = DONE\n"),
    (
        b"HISTORY *\n0 TICK = DONE\n1 STATUS = STATE 0 1,2 65535\n",
        b"HISTORY 2\n0 TICK = DONE\n1 STATUS = STATE 0 1,2 65535\n",
    ),
];

/// Whether the text is read as the history of a counted text.
fn is_read_as(alloc: Global, text: &[u8], counted: &[u8]) -> bool {
    match read_history(alloc, text) {
        Ok(history) => is_text_of(alloc, history.as_slice(), counted),
        Err(_) => false,
    }
}

#[test]
fn a_journal_is_read_up_to_any_line(rt: HostRuntime) -> Result<(), Fail> {
    for place in 0..JOURNALS.len() {
        let (text, counted) = JOURNALS[place];
        expect_row("the journals", place, is_read_as(rt.alloc(), text, counted))?;
    }
    Ok(())
}

/// What comes before a block or blocks, how many bytes they have, what comes after them, and
/// whether that is a line of an entry.
type PageRow = (&'static [u8], u32, &'static [u8], bool);

static PAGES: [PageRow; 14] = [
    (b"0 PUT 1 1 ", 512, b" = DONE", true),
    (b"0 PUT 1 1 ", 511, b" = DONE", false),
    (b"0 PUT 1 1 ", 513, b" = DONE", false),
    (b"0 PUT 1 1 ", 1024, b" = DONE", false),
    (b"0 PUTREC 1 1 ", 1024, b" = DONE", true),
    (b"0 PUTREC 1 1 ", 512, b" = DONE", true),
    (b"0 PUTREC 1 1 ", 1023, b" = DONE", false),
    (b"0 PUTREC 1 1 ", 512, b"0 = DONE", false),
    (b"0 PUTREC 1 1 ", 511, b"0F = DONE", false),
    (b"0 GET 1 1 = BLOCK ", 512, b"", true),
    (b"0 GET 1 1 = BLOCK ", 511, b"", false),
    (b"0 GETREC 1 1 3 = RECORD ", 1536, b"", true),
    (b"0 GETREC 1 1 3 = RECORD ", 1535, b"", false),
    (b"0 GETREC 1 1 3 = RECORD ", 512, b"-", false),
];

fn pages() -> &'static [PageRow] {
    &PAGES
}

/// Returns whether a text of a line with this start, these digits and this end is read as it was
/// written.
fn is_page_read(alloc: Global, front: &[u8], signs: &[u8], end: &[u8]) -> bool {
    match [b"HISTORY 1\n".as_slice(), front, signs, end, b"\n"].concat(alloc) {
        Ok(text) => is_read_back(alloc, text.as_slice()),
        Err(_) => false,
    }
}

/// Returns whether a row is answered so, with as many of these digits as it has.
fn is_page_answered(alloc: Global, signs: &[u8], row: &PageRow) -> bool {
    let count = row.1 as usize * 2;
    if count > signs.len() {
        return false;
    }
    is_page_read(alloc, row.0, &signs[..count], row.2) == row.3
}

/// Fails with the first row that is answered otherwise, of blocks of these digits.
fn expect_pages(alloc: Global, signs: &[u8], rows: &[PageRow]) -> Result<(), Fail> {
    for place in 0..rows.len() {
        let is_so = is_page_answered(alloc, signs, &rows[place]);
        expect_row("the blocks", place, is_so)?;
    }
    Ok(())
}

/// Returns the digits of this many bytes.
fn signs_of(alloc: Global, bytes: usize) -> Result<Vec<u8>, AllocError> {
    let pairs = vec![in alloc; *b"0f"; bytes]?;
    pairs.as_slice().concat(alloc)
}

#[test]
fn blocks_are_whole(rt: HostRuntime) -> Result<(), Fail> {
    let signs = signs_of(rt.alloc(), 1536)?;
    expect_pages(rt.alloc(), signs.as_slice(), pages())
}
