//! The deck of the drill, and what is counted in a history.

use crate::expects::{expect, expect_bytes, expect_row};
use basic_values::KeyLine;
use deck_reader::{Deck, Terminal, read_deck};
use drill_deck::{Tally, drill_deck, drill_line, tally_of};
use monitor_calls::{AccountEntry, Entry, FileEntry, Page, Reply, Request};
use program_words::MOST_DRILL_JOBS;
use std::alloc::{AllocError, Global};
use std::test::Fail;

const FRONT: &str = "RSTS-DECK 1\nDISK 8\nACCOUNT 100,5 DEMO 16384\nFILE [100,5]COUNT.DAT<60> 1\n";

const KEYS: &str = ">HELLO 100,5;DEMO\n>10 ON ERROR GOTO 100\n\
>20 OPEN \"COUNT.DAT\" AS FILE 1%, MODE 1%\n>30 FIELD #1%, 2% AS C$\n>40 FOR I%=1% TO 20%\n\
>50 GET #1%, RECORD 1%\n>60 LSET C$=CVT%$(CVT$%(C$)+1%)\n>70 PUT #1%, RECORD 1%\n>80 NEXT I%\n\
>90 CLOSE 1% : GOTO 130\n>100 IF ERR<>19% THEN ON ERROR GOTO 0\n\
>110 K%=0% : K%=K%+1% WHILE K%<1000%\n>120 SLEEP 1% : RESUME\n>130 END\n>RUNNH\n>BYE\n";

/// What decks are compared by, part by part.
trait Same {
    fn is_same(&self, other: &Self) -> bool;
}

/// Returns whether two lists have as many parts, and each is the same as the other's.
fn are_same<T: Same>(a: &[T], b: &[T]) -> bool {
    if a.len() != b.len() {
        return false;
    }
    for place in 0..a.len() {
        if !a[place].is_same(&b[place]) {
            return false;
        }
    }
    true
}

impl Same for AccountEntry {
    fn is_same(&self, other: &AccountEntry) -> bool {
        self.account == other.account
            && self.limit == other.limit
            && self.quota == other.quota
            && self.password.as_bytes() == other.password.as_bytes()
    }
}

impl Same for Page {
    fn is_same(&self, other: &Page) -> bool {
        self.as_bytes() == other.as_bytes()
    }
}

impl Same for FileEntry {
    fn is_same(&self, other: &FileEntry) -> bool {
        self.code == other.code
            && self.name.is_same(&other.name)
            && are_same(self.pages.as_slice(), other.pages.as_slice())
    }
}

impl Same for KeyLine {
    fn is_same(&self, other: &KeyLine) -> bool {
        self.as_bytes() == other.as_bytes()
    }
}

impl Same for Terminal {
    fn is_same(&self, other: &Terminal) -> bool {
        self.name.as_bytes() == other.name.as_bytes()
            && are_same(self.keys.as_slice(), other.keys.as_slice())
    }
}

impl Same for Deck {
    fn is_same(&self, other: &Deck) -> bool {
        self.volume.blocks == other.volume.blocks
            && are_same(
                self.volume.accounts.as_slice(),
                other.volume.accounts.as_slice(),
            )
            && are_same(self.volume.files.as_slice(), other.volume.files.as_slice())
            && are_same(self.terminals.as_slice(), other.terminals.as_slice())
    }
}

/// Appends the text of the deck of this many terminals.
fn push_text(text: &mut String, jobs: u32) -> Result<(), AllocError> {
    text.push_str(FRONT)?;
    for number in 1..=jobs {
        write!(text, "TERMINAL T{number}\n{KEYS}")?;
    }
    text.push_str("END\n")
}

fn text_of(alloc: Global, jobs: u32) -> Result<String, AllocError> {
    let mut text = String::new(alloc);
    push_text(&mut text, jobs)?;
    Ok(text)
}

/// Returns whether a text spells a deck that is this one.
fn is_spelled(alloc: Global, text: &[u8], deck: &Deck) -> bool {
    if text.len() > 65_536 {
        return false;
    }
    match read_deck(alloc, text) {
        Ok(read) => read.is_same(deck),
        Err(_) => false,
    }
}

/// Returns whether a text spells the deck of this many jobs.
fn is_made(alloc: Global, text: &[u8], jobs: u32) -> bool {
    match drill_deck(alloc, jobs.min(MOST_DRILL_JOBS)) {
        Ok(deck) => is_spelled(alloc, text, &deck),
        Err(_) => false,
    }
}

/// Returns whether the deck of this many jobs is the one that its text spells.
fn is_that_of_its_text(alloc: Global, jobs: u32) -> Result<bool, AllocError> {
    let text = text_of(alloc, jobs)?;
    Ok(is_made(alloc, text.as_bytes(), jobs))
}

#[test]
fn the_deck_is_that_of_its_text(rt: HostRuntime) -> Result<(), Fail> {
    let decks = [1, 4, 16];
    for place in 0..decks.len() {
        expect_row(
            "the decks",
            place,
            is_that_of_its_text(rt.alloc(), decks[place])?,
        )?;
    }
    Ok(())
}

/// Returns a page that begins with these two bytes.
fn page_of(alloc: Global, high: u8, low: u8) -> Result<Page, Fail> {
    let mut bytes = [0u8; 512];
    bytes[0] = high;
    bytes[1] = low;
    let mut page = Page::new(alloc)?;
    page.fill(&bytes);
    Ok(page)
}

/// Returns a Put of such a page, which is done or comes too late.
fn put_of(alloc: Global, bytes: (u8, u8), is_done: bool) -> Result<Entry, Fail> {
    let page = page_of(alloc, bytes.0, bytes.1)?;
    let request = Request::Put {
        channel: 1,
        block: 1,
        page,
    };
    let reply = if is_done { Reply::Done } else { Reply::Expired };
    Ok(Entry::new(0, request, reply))
}

/// Appends Puts, of which one is refused, and other calls between them.
fn push_puts(history: &mut Vec<Entry>, alloc: Global) -> Result<(), Fail> {
    history.push(put_of(alloc, (0, 1), true)?)?;
    history.push(Entry::new(1, Request::Tick, Reply::Done))?;
    history.push(put_of(alloc, (1, 2), true)?)?;
    history.push(put_of(alloc, (9, 9), false)?)?;
    Ok(())
}

fn tally_of_puts(alloc: Global) -> Result<Tally, Fail> {
    let mut history = Vec::new(alloc);
    push_puts(&mut history, alloc)?;
    Ok(tally_of(history.as_slice()))
}

/// Fails with the line of a drill of one job that has this tally, unless it is that one.
fn expect_line(alloc: Global, told: Tally, want: &[u8]) -> Result<(), Fail> {
    let line = drill_line(alloc, 1, told)?;
    expect_bytes(line.as_slice(), want)
}

#[test]
fn puts_that_were_done_are_counted(rt: HostRuntime) -> Result<(), Fail> {
    let nothing = Tally { puts: 0, sum: 0 };
    expect(tally_of(&[]) == nothing, "what an empty history comes to")?;
    let told = tally_of_puts(rt.alloc())?;
    let two = Tally { puts: 2, sum: 258 };
    expect(told == two, "what a history of Puts comes to")?;
    expect_line(rt.alloc(), told, b"DRILL 1 JOBS 2 PUTS 258 SUM\n")
}
