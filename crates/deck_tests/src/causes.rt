//! Decks that are rejected: each cause, and the line at which it occurs.

use crate::expects::expect_row;
use basic_values::Trouble;
use deck_model::DeckCause;
use deck_reader::read_deck;
use std::alloc::{AllocError, Global};
use std::test::Fail;

/// Lines of a deck, the line at which it is rejected, and the cause.
type Row = (&'static [u8], u32, DeckCause);

/// Returns the line and the cause for which bytes are rejected, and none if they are a deck, or too
/// long for these tests.
fn refusal(alloc: Global, bytes: &[u8]) -> Option<(u32, DeckCause)> {
    if bytes.len() > 4096 {
        return None;
    }
    match read_deck(alloc, bytes) {
        Err(Trouble::Refused(fault)) => Some((fault.line, fault.cause)),
        _ => None,
    }
}

/// Returns whether a prefix and these lines after it are rejected so.
fn is_refused_behind(
    alloc: Global,
    front: &[u8],
    lines: &[u8],
    line: u32,
    cause: DeckCause,
) -> bool {
    match [front, lines].concat(alloc) {
        Ok(deck) => is_refused(alloc, deck.as_slice(), line, cause),
        Err(_) => false,
    }
}

/// Returns whether bytes are rejected at that line and for that cause.
fn is_refused(alloc: Global, bytes: &[u8], line: u32, cause: DeckCause) -> bool {
    match refusal(alloc, bytes) {
        Some((at, why)) => at == line && why == cause,
        None => false,
    }
}

/// Fails with the first row that is rejected otherwise, each after this prefix.
fn expect_causes(alloc: Global, front: &[u8], rows: &[Row]) -> Result<(), Fail> {
    for place in 0..rows.len() {
        let (lines, line, cause) = rows[place];
        let is_so = is_refused_behind(alloc, front, lines, line, cause);
        expect_row("the rows", place, is_so)?;
    }
    Ok(())
}

static DECKS: [Row; 27] = [
    (b"", 1, DeckCause::Cut),
    (b"RSTS-DECK 1", 1, DeckCause::Cut),
    (b"RSTS-DECK 1\n", 2, DeckCause::Cut),
    (b"RSTS-DECK 1\nDISK 8\nEND", 3, DeckCause::Cut),
    (b"RSTS-DECK 1\nDISK 8\nEND\nX", 4, DeckCause::Cut),
    (b"RSTS-DECK 9\n", 1, DeckCause::Version),
    (b"RSTS-DECK 4\n", 1, DeckCause::Version),
    (b"RSTS-DECK 2 \n", 1, DeckCause::Version),
    (b"\n", 1, DeckCause::Version),
    (b"RSTS-DECK 1\nDISK 007\n", 2, DeckCause::Shape),
    (b"RSTS-DECK 1\nDISK  8\n", 2, DeckCause::Shape),
    (b"RSTS-DECK 1\nDISK 0\n", 2, DeckCause::Range),
    (b"RSTS-DECK 1\nDISK 16385\n", 2, DeckCause::Range),
    (
        b"RSTS-DECK 1\nDISK 100000000000000000000000000000\n",
        2,
        DeckCause::Range,
    ),
    (
        b"RSTS-DECK 1\nDISK 8\nACCOUNT 0,5 DEMO 100\n",
        3,
        DeckCause::Range,
    ),
    (
        b"RSTS-DECK 1\nDISK 8\nACCOUNT 100,255 DEMO 100\n",
        3,
        DeckCause::Range,
    ),
    (
        b"RSTS-DECK 1\nDISK 8\nACCOUNT 100,5  100\n",
        3,
        DeckCause::Range,
    ),
    (
        b"RSTS-DECK 1\nDISK 8\nACCOUNT 100,5 demo 100\n",
        3,
        DeckCause::Shape,
    ),
    (
        b"RSTS-DECK 1\nDISK 8\nACCOUNT 100,5 DEMO 100 1\n",
        3,
        DeckCause::Shape,
    ),
    (
        b"RSTS-DECK 1\nDISK 8\nACCOUNT 100,5 DEMO 100\nACCOUNT 100,5 OTHER 9\n",
        4,
        DeckCause::Double,
    ),
    (
        b"RSTS-DECK 1\nDISK 8\nFILE [100,5]A<60> 1\n",
        3,
        DeckCause::Owner,
    ),
    (
        b"RSTS-DECK 1\nDISK 8\nTERMINAL T23456789\n",
        3,
        DeckCause::Range,
    ),
    (
        b"RSTS-DECK 1\nDISK 8\nTERMINAL T1\nTERMINAL T1\n",
        4,
        DeckCause::Double,
    ),
    (
        b"RSTS-DECK 1\nDISK 8\nTERMINAL T1\nACCOUNT 1,2 A 1\n",
        4,
        DeckCause::Shape,
    ),
    (b"RSTS-DECK 1\nDISK 8\n>KEYS\n", 3, DeckCause::Shape),
    (b"RSTS-DECK 1\nDISK 8\n\nEND\n", 3, DeckCause::Shape),
    (b"RSTS-DECK 1\nDISK 8\nEND\nX\n", 4, DeckCause::Shape),
];

fn decks() -> &'static [Row] {
    &DECKS
}

#[test]
fn each_cause_stands_at_its_line(rt: HostRuntime) -> Result<(), Fail> {
    expect_causes(rt.alloc(), b"", decks())
}

static QUOTAS: [Row; 10] = [
    (
        b"ACCOUNT 100,5 DEMO 100 1\nFILE [100,5]A<60> 2\n",
        4,
        DeckCause::Space,
    ),
    (b"ACCOUNT 100,5 DEMO 100\n", 3, DeckCause::Shape),
    (b"ACCOUNT 100,5 DEMO 100 16385\n", 3, DeckCause::Range),
    (b"ACCOUNT 100,5 DEMO 100 01\n", 3, DeckCause::Shape),
    (b"ACCOUNT 100,5 DEMO 100 \n", 3, DeckCause::Shape),
    (b"ACCOUNT 100,5 DEMO 100 1 1\n", 3, DeckCause::Shape),
    (b"ACCOUNT 100,5 DEMO 16385 1\n", 3, DeckCause::Range),
    (
        b"ACCOUNT 100,5 DEMO 100 0\nFILE [100,5]A<60> 0\nFILE [100,5]B<60> 1\n",
        5,
        DeckCause::Space,
    ),
    (
        b"ACCOUNT 100,5 A 9 1\nACCOUNT 1,2 B 9 1\nFILE [100,5]A<60> 1\nFILE [1,2]A<60> 2\n",
        6,
        DeckCause::Space,
    ),
    (
        b"ACCOUNT 100,5 DEMO 100 1\nFILE [100,6]A<60> 2\n",
        4,
        DeckCause::Owner,
    ),
];

fn quotas() -> &'static [Row] {
    &QUOTAS
}

#[test]
fn each_cause_of_a_quota_stands_at_its_line(rt: HostRuntime) -> Result<(), Fail> {
    expect_causes(rt.alloc(), b"RSTS-DECK 2\nDISK 8\n", quotas())
}

/// A disk of two blocks and an account.
const FRONT: &[u8] = b"RSTS-DECK 1\nDISK 2\nACCOUNT 100,5 DEMO 9\n";

static FILES: [Row; 20] = [
    (b"FILE [100,5]A<60>1\n", 4, DeckCause::Shape),
    (b"FILE [100,5]A 1\n", 4, DeckCause::Shape),
    (b"FILE [100,5]a<60> 1\n", 4, DeckCause::Shape),
    (b"FILE [100,5]A.B.C<60> 1\n", 4, DeckCause::Shape),
    (b"FILE [100,5]A<060> 1\n", 4, DeckCause::Shape),
    (b"FILE [100,5]A.<60> 1\n", 4, DeckCause::Range),
    (b"FILE [100,5].B<60> 1\n", 4, DeckCause::Range),
    (b"FILE [100,5]ABCDEFG<60> 1\n", 4, DeckCause::Range),
    (b"FILE [100,5]A.ABCD<60> 1\n", 4, DeckCause::Range),
    (b"FILE [255,5]A<60> 1\n", 4, DeckCause::Range),
    (b"FILE [100,5]A<64> 1\n", 4, DeckCause::Range),
    (b"FILE [100,5]A<60> 16385\n", 4, DeckCause::Range),
    (b"FILE [100,6]A<60> 9\n", 4, DeckCause::Owner),
    (b"FILE [100,5]A<60> 3\n", 4, DeckCause::Space),
    (
        b"FILE [100,5]A<60> 1\nFILE [100,5]A.B<60> 2\n",
        5,
        DeckCause::Space,
    ),
    (
        b"FILE [100,5]A<60> 1\nFILE [100,5]A<0> 9\n",
        5,
        DeckCause::Double,
    ),
    (b"FILE [100,5]A<60> 0\n>\n", 5, DeckCause::Space),
    (b">\n", 4, DeckCause::Shape),
    (
        b"FILE [100,5]A<60> 1\nACCOUNT 1,2 A 1\n",
        5,
        DeckCause::Shape,
    ),
    (b"TERMINAL T1\nFILE [100,5]B<60> 1\n", 5, DeckCause::Shape),
];

fn files() -> &'static [Row] {
    &FILES
}

#[test]
fn each_cause_of_a_file_stands_at_its_line(rt: HostRuntime) -> Result<(), Fail> {
    expect_causes(rt.alloc(), FRONT, files())
}

/// A disk of two blocks and an account, in version 3.
const THIRD_FRONT: &[u8] = b"RSTS-DECK 3\nDISK 2\nACCOUNT 100,5 DEMO 9 2\n";

static BLOCKS: [Row; 14] = [
    (b"FILE [100,5]a<256> 1\n", 4, DeckCause::Range),
    (b"FILE [100,5]a<060> 1\n", 4, DeckCause::Shape),
    (b"FILE [100,5]abcdefg<60> 1\n", 4, DeckCause::Range),
    (b"FILE [100,5]a.abcdefg<60> 1\n", 4, DeckCause::Range),
    (b"FILE [100,5]a-b<60> 1\n", 4, DeckCause::Shape),
    (b"FILE [100,6]a<60> 9\n", 4, DeckCause::Owner),
    (
        b"FILE [100,5]a<60> 1\nFILE [100,5]a<7> 1\n",
        5,
        DeckCause::Double,
    ),
    (b"FILE [100,5]a<60> 1\n=0\n", 5, DeckCause::Shape),
    (b"FILE [100,5]a<60> 1\n=0A\n", 5, DeckCause::Shape),
    (b"FILE [100,5]a<60> 1\n=0g\n", 5, DeckCause::Shape),
    (b"FILE [100,5]a<60> 1\n=0a\n=\n", 6, DeckCause::Space),
    (b"FILE [100,5]a<60> 1\n=\n>\n", 6, DeckCause::Space),
    (b"FILE [100,5]a<60> 1\n>10 END\n=ff\n", 6, DeckCause::Space),
    (b"TERMINAL T1\n=00\n", 5, DeckCause::Shape),
];

fn blocks() -> &'static [Row] {
    &BLOCKS
}

#[test]
fn each_cause_of_a_line_of_bytes_is_at_its_line(rt: HostRuntime) -> Result<(), Fail> {
    expect_causes(rt.alloc(), THIRD_FRONT, blocks())
}

static OLD_BLOCKS: [Row; 2] = [
    (
        b"RSTS-DECK 1\nDISK 2\nACCOUNT 100,5 DEMO 9\nFILE [100,5]A<60> 1\n=00\n",
        5,
        DeckCause::Shape,
    ),
    (
        b"RSTS-DECK 2\nDISK 2\nACCOUNT 100,5 DEMO 9 2\nFILE [100,5]A<60> 1\n=00\n",
        5,
        DeckCause::Shape,
    ),
];

fn old_blocks() -> &'static [Row] {
    &OLD_BLOCKS
}

#[test]
fn only_version_three_has_lines_of_bytes(rt: HostRuntime) -> Result<(), Fail> {
    expect_causes(rt.alloc(), b"", old_blocks())
}

/// Fails with the line at which bytes are rejected, unless it is that line and that cause.
fn expect_refusal(alloc: Global, bytes: &[u8], line: u32, cause: DeckCause) -> Result<(), Fail> {
    match refusal(alloc, bytes) {
        Some((at, why)) if at == line && why == cause => Ok(()),
        Some((at, _)) => Err(Fail::new(format_args!("it is refused at line {at}"))),
        None => Err(Fail::new("it is not refused")),
    }
}

/// Returns a prefix, this many letters A after it, and the end of a deck.
fn deck_of_letters(alloc: Global, front: &[u8], letters: usize) -> Result<Vec<u8>, AllocError> {
    let letters = vec![in alloc; b'A'; letters]?;
    [front, letters.as_slice(), b"\nEND\n"].concat(alloc)
}

/// Returns a prefix, `=` with this many bytes of zero after it, and the end of a deck.
fn deck_of_zeros(alloc: Global, front: &[u8], bytes: usize) -> Result<Vec<u8>, AllocError> {
    let digits = vec![in alloc; b'0'; bytes.saturating_mul(2)]?;
    [front, b"=", digits.as_slice(), b"\nEND\n"].concat(alloc)
}

#[test]
fn a_line_of_bytes_has_at_most_512(rt: HostRuntime) -> Result<(), Fail> {
    let front = b"RSTS-DECK 3\nDISK 2\nACCOUNT 100,5 DEMO 9 2\nFILE [100,5]a<60> 2\n";
    let deck = deck_of_zeros(rt.alloc(), front, 513)?;
    expect_refusal(rt.alloc(), deck.as_slice(), 5, DeckCause::Range)?;
    let deck = deck_of_zeros(rt.alloc(), front, 512)?;
    match refusal(rt.alloc(), deck.as_slice()) {
        Some(_) => Err(Fail::new("512 bytes are rejected")),
        None => Ok(()),
    }
}

#[test]
fn a_text_of_511_bytes_is_beyond_one_block(rt: HostRuntime) -> Result<(), Fail> {
    let front = b"RSTS-DECK 1\nDISK 2\nACCOUNT 100,5 DEMO 9\nFILE [100,5]A<60> 1\n>";
    let deck = deck_of_letters(rt.alloc(), front, 511)?;
    expect_refusal(rt.alloc(), deck.as_slice(), 5, DeckCause::Space)
}

#[test]
fn a_key_line_has_at_most_255_bytes(rt: HostRuntime) -> Result<(), Fail> {
    let front = b"RSTS-DECK 1\nDISK 8\nTERMINAL T1\n>";
    let deck = deck_of_letters(rt.alloc(), front, 256)?;
    expect_refusal(rt.alloc(), deck.as_slice(), 4, DeckCause::Range)
}

/// Fails unless each prefix of a deck is rejected as cut in its last line.
fn expect_cut(alloc: Global, deck: &[u8]) -> Result<(), Fail> {
    let mut line = 1u32;
    for at in 0..deck.len() {
        let is_so = is_refused(alloc, &deck[..at], line, DeckCause::Cut);
        expect_row("the fronts", at, is_so)?;
        if deck[at] == b'\n' {
            line = line.saturating_add(1);
        }
    }
    Ok(())
}

#[test]
fn a_deck_cut_behind_each_of_its_bytes_ends_early(rt: HostRuntime) -> Result<(), Fail> {
    let deck = b"RSTS-DECK 1\nDISK 2\nACCOUNT 100,5 DEMO 9\nFILE [100,5]A.B<60> 1\n>10 END\n\
TERMINAL T1\n>A\nEND\n";
    expect_cut(rt.alloc(), deck)
}

/// Appends the text of a deck of this many terminals.
fn push_deck(deck: &mut String, count: u32) -> Result<(), AllocError> {
    deck.push_str("RSTS-DECK 1\nDISK 8\n")?;
    for number in 0..count {
        write!(deck, "TERMINAL T{number}\n")?;
    }
    deck.push_str("END\n")
}

#[test]
fn the_sixty_fourth_terminal_has_no_room(rt: HostRuntime) -> Result<(), Fail> {
    let mut deck = String::new(rt.alloc());
    push_deck(&mut deck, 64)?;
    expect_refusal(rt.alloc(), deck.as_bytes(), 66, DeckCause::Space)
}
