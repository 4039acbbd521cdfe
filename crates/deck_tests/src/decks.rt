//! Decks that are read, and written again as texts.

use crate::expects::expect;
use deck_reader::{Deck, Terminal, read_deck};
use monitor_calls::{Account, AccountEntry, FileEntry, Page};
use std::alloc::Global;
use std::test::Fail;

/// What is left of the bytes that are expected of a deck. Whoever puts something there need not ask
/// each time whether it was the next.
struct Told {
    rest: &'static [u8],
    is_other: bool,
}

impl Told {
    fn bytes(&mut self, bytes: &[u8]) {
        if self.rest.starts_with(bytes) {
            self.rest = &self.rest[bytes.len()..];
        } else {
            self.is_other = true;
        }
    }

    /// Puts the last digit of a number.
    fn digit(&mut self, number: u16) {
        self.bytes(&[b'0' + (number % 10) as u8])
    }

    /// Puts a number, and what comes after it.
    fn number(&mut self, number: u16, end: &[u8]) {
        if number > 9999 {
            self.digit(number / 10000);
        }
        if number > 999 {
            self.digit(number / 1000);
        }
        if number > 99 {
            self.digit(number / 100);
        }
        if number > 9 {
            self.digit(number / 10);
        }
        self.digit(number);
        self.bytes(end)
    }

    /// Puts what comes before a line, and the line.
    fn line(&mut self, front: &[u8], bytes: &[u8]) {
        self.bytes(front);
        self.bytes(bytes);
        self.bytes(b"\n")
    }
}

/// Returns whether a deck is written as these bytes: a line for the disk, for each account, file,
/// terminal and key line.
fn is_told(deck: &Deck, want: &'static [u8]) -> bool {
    let mut out = Told {
        rest: want,
        is_other: false,
    };
    out.number(deck.volume.blocks, b" blocks\n");
    put_accounts(&mut out, deck.volume.accounts.as_slice());
    put_files(&mut out, deck.volume.files.as_slice());
    put_terminals(&mut out, deck.terminals.as_slice());
    let Told { rest, is_other } = out;
    rest.is_empty() && !is_other
}

/// Fails unless the bytes spell a deck that is written so.
fn expect_told(alloc: Global, bytes: &[u8], want: &'static [u8]) -> Result<(), Fail> {
    if bytes.len() > 4096 {
        return Err(Fail::new("a deck that is too long for these tests"));
    }
    match read_deck(alloc, bytes) {
        Ok(deck) => expect(is_told(&deck, want), "another deck"),
        Err(_) => Err(Fail::new("it is no deck")),
    }
}

fn put_owner(out: &mut Told, owner: Account) {
    out.number(owner.project as u16, b",");
    out.number(owner.programmer as u16, b" ")
}

fn put_accounts(out: &mut Told, accounts: &[AccountEntry]) {
    for entry in accounts {
        put_owner(out, entry.account);
        out.number(entry.limit, b" ");
        out.number(entry.quota, b" ");
        out.line(b"", entry.password.as_bytes());
    }
}

fn put_files(out: &mut Told, files: &[FileEntry]) {
    for file in files {
        put_owner(out, file.name.owner);
        out.number(file.code as u16, b" ");
        out.bytes(file.name.stem.as_bytes());
        out.line(b".", file.name.extension.as_bytes());
        put_pages(out, file.pages.as_slice());
    }
}

/// Returns the bytes before the zeros at the end.
fn without_zeros(bytes: &[u8]) -> &[u8] {
    let mut kept = 0;
    for place in 0..bytes.len() {
        if bytes[place] != 0 {
            kept = place + 1;
        }
    }
    &bytes[..kept.min(bytes.len())]
}

/// Puts the bytes of each page up to the zeros at its end, and a star.
fn put_pages(out: &mut Told, pages: &[Page]) {
    for page in pages {
        out.bytes(without_zeros(page.as_bytes()));
        out.bytes(b"*");
    }
}

fn put_terminals(out: &mut Told, terminals: &[Terminal]) {
    for terminal in terminals {
        out.line(b"", terminal.name.as_bytes());
        for key in terminal.keys.as_slice() {
            out.line(b">", key.as_bytes());
        }
    }
}

const DECK: &[u8] = b"RSTS-DECK 1\r\nDISK 100\nACCOUNT 1,2 PW3 50\nACCOUNT 254,0 A 16384\n\
TERMINAL T1\n>HELLO 1,2\n>\nTERMINAL T2345678\n>A\r\r\nEND\n";

#[test]
fn a_deck_is_read(rt: HostRuntime) -> Result<(), Fail> {
    let want =
        b"100 blocks\n1,2 50 100 PW3\n254,0 16384 100 A\nT1\n>HELLO 1,2\n>\nT2345678\n>A\r\n";
    expect_told(rt.alloc(), DECK, want)
}

#[test]
fn a_deck_without_accounts_and_terminals_is_read(rt: HostRuntime) -> Result<(), Fail> {
    expect_told(rt.alloc(), b"RSTS-DECK 1\nDISK 1\nEND\n", b"1 blocks\n")
}

const FILES: &[u8] = b"RSTS-DECK 1\nDISK 3\nACCOUNT 100,5 DEMO 9\nFILE [100,5]SUM.BAS<40> 2\n\
>10 PRINT 1%\n>\nFILE [100,5]B<0> 0\nEND\n";

#[test]
fn files_are_read_with_their_texts(rt: HostRuntime) -> Result<(), Fail> {
    let want = b"3 blocks\n100,5 9 3 DEMO\n100,5 40 SUM.BAS\n10 PRINT 1%\r\n\r\n**100,5 0 B.\n";
    expect_told(rt.alloc(), FILES, want)
}

/// The first page has zeros after the text, and the second nothing else.
#[test]
fn zeros_stand_behind_the_text_of_a_file(rt: HostRuntime) -> Result<(), Fail> {
    let deck = b"RSTS-DECK 1\nDISK 2\nACCOUNT 1,2 A 9\nFILE [1,2]B<0> 2\n>10 END\nEND\n";
    let want = b"2 blocks\n1,2 9 2 A\n1,2 0 B.\n10 END\r\n**";
    expect_told(rt.alloc(), deck, want)
}

/// In version 2 an account has the quota that its line gives.
#[test]
fn quotas_are_read(rt: HostRuntime) -> Result<(), Fail> {
    let deck = b"RSTS-DECK 2\nDISK 8\nACCOUNT 100,5 DEMO 9 1\nACCOUNT 1,2 A 1 16384\n\
FILE [100,5]A<60> 1\nEND\n";
    let want = b"8 blocks\n100,5 9 1 DEMO\n1,2 1 16384 A\n100,5 60 A.\n*";
    expect_told(rt.alloc(), deck, want)
}

/// In version 3 a name may have small letters and no stem, and a file lines of bytes.
#[test]
fn lines_of_bytes_are_read(rt: HostRuntime) -> Result<(), Fail> {
    let deck = b"RSTS-DECK 3\nDISK 4\nACCOUNT 100,5 DEMO 9 4\n\
FILE [100,5].Basic7<255> 3\n=4a4b\n=\n>10 END\nEND\n";
    let want = b"4 blocks\n100,5 9 4 DEMO\n100,5 255 .Basic7\nJK**10 END\r\n*";
    expect_told(rt.alloc(), deck, want)
}
