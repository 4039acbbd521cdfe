//! Disks of decks, written as decks of version 3 and read again.

use crate::expects::expect_bytes;
use deck_reader::{Deck, read_deck};
use disk_texts::push_volume;
use monitor_calls::TerminalName;
use std::alloc::Global;
use std::test::Fail;

/// Returns the text of a deck's disk, with the deck's terminals.
fn disk_text(alloc: Global, deck: &Deck) -> Result<Vec<u8>, Fail> {
    let mut names = Vec::new(alloc);
    for terminal in deck.terminals.as_slice() {
        match TerminalName::of(terminal.name.as_bytes()) {
            Some(name) => names.push(name)?,
            None => return Err(Fail::new("a terminal without a name")),
        }
    }
    let mut out = Vec::new(alloc);
    push_volume(&mut out, &deck.volume, names.as_slice())?;
    Ok(out)
}

/// Fails unless the bytes spell a deck whose disk is written so.
fn expect_disk(alloc: Global, bytes: &[u8], want: &[u8]) -> Result<(), Fail> {
    if bytes.len() > 4096 {
        return Err(Fail::new("a deck that is too long for these tests"));
    }
    match read_deck(alloc, bytes) {
        Ok(deck) => expect_bytes(disk_text(alloc, &deck)?.as_slice(), want),
        Err(_) => Err(Fail::new("it is no deck")),
    }
}

/// Fails unless the deck's disk is written so, and its text gives the same disk again.
fn expect_round(alloc: Global, bytes: &[u8], want: &[u8]) -> Result<(), Fail> {
    expect_disk(alloc, bytes, want)?;
    expect_disk(alloc, want, want)
}

/// The quota that no line told is the whole disk, and nothing is typed at the terminals.
#[test]
fn texts_are_written_as_texts(rt: HostRuntime) -> Result<(), Fail> {
    let deck = b"RSTS-DECK 1\r\nDISK 3\nACCOUNT 100,5 DEMO 9\nFILE [100,5]SUM.BAS<40> 2\n\
>10 PRINT 1%\n>\nFILE [100,5]B<0> 0\nTERMINAL T1\n>HELLO 100,5\nTERMINAL T2\nEND\n";
    let want = b"RSTS-DECK 3\nDISK 3\nACCOUNT 100,5 DEMO 9 3\nFILE [100,5]SUM.BAS<40> 2\n\
>10 PRINT 1%\n>\nFILE [100,5]B<0> 0\nTERMINAL T1\nTERMINAL T2\nEND\n";
    expect_round(rt.alloc(), deck, want)
}

/// A block of zeros before other bytes has a line of its own.
#[test]
fn other_bytes_are_written_block_by_block(rt: HostRuntime) -> Result<(), Fail> {
    let deck = b"RSTS-DECK 3\nDISK 4\nACCOUNT 100,5 DEMO 9 0\nACCOUNT 1,2 A 16384 4\n\
FILE [1,2].Basic7<255> 4\n=4a4b\n=\n>10 END\nEND\n";
    let want = b"RSTS-DECK 3\nDISK 4\nACCOUNT 100,5 DEMO 9 0\nACCOUNT 1,2 A 16384 4\n\
FILE [1,2].Basic7<255> 4\n=4a4b\n=\n=313020454e440d0a\n=\nEND\n";
    expect_round(rt.alloc(), deck, want)
}

#[test]
fn a_file_of_zeros_has_no_lines(rt: HostRuntime) -> Result<(), Fail> {
    let deck = b"RSTS-DECK 3\nDISK 2\nACCOUNT 1,2 A 9 2\nFILE [1,2]Z<60> 2\n=\n=0000\nEND\n";
    let want = b"RSTS-DECK 3\nDISK 2\nACCOUNT 1,2 A 9 2\nFILE [1,2]Z<60> 2\nEND\n";
    expect_round(rt.alloc(), deck, want)
}

/// A text is lines of printable characters and TABs, each ended by CR LF.
#[test]
fn only_lines_that_cr_lf_ends_are_a_text(rt: HostRuntime) -> Result<(), Fail> {
    let deck = b"RSTS-DECK 3\nDISK 6\nACCOUNT 1,2 A 9 6\nFILE [1,2]A<60> 1\n=09410d0a\n\
FILE [1,2]B<60> 1\n=410a\nFILE [1,2]C<60> 1\n=41\nFILE [1,2]D<60> 1\n=7f0d0a\n\
FILE [1,2]E<60> 1\n=41000d0a\nFILE [1,2]F<60> 1\n=410d0d0a\nEND\n";
    let want = b"RSTS-DECK 3\nDISK 6\nACCOUNT 1,2 A 9 6\nFILE [1,2]A<60> 1\n>\tA\n\
FILE [1,2]B<60> 1\n=410a\nFILE [1,2]C<60> 1\n=41\nFILE [1,2]D<60> 1\n=7f0d0a\n\
FILE [1,2]E<60> 1\n=41000d0a\nFILE [1,2]F<60> 1\n=410d0d0a\nEND\n";
    expect_round(rt.alloc(), deck, want)
}
