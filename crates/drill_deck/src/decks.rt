//! The deck of the drill.

ghost use Rattle.std.specs.Prelude.{◌≡◌, ◌≤◌, ◌++◌, ◌∷◌, [], true, codes, length, map, nat_le};
ghost use Rattle.std.specs.Prelude.{IfOk};
ghost use Rattle.std.specs.List.{list_all};
ghost use Rattle.std.specs.Fmt.{decimal};
ghost use Rattle.basic_values.specs.declared.lists.TheConstants.{LINE_LENGTH};
ghost use Rattle.program_words.specs.declared.words.TheConstants.{MOST_DRILL_JOBS};
ghost use Rattle.deck_model.specs.Deck.{IsDeck};
ghost use Rattle.deck_reader.specs.Seen.{deck_of, terminal_of};
ghost use Rattle.drill_deck.specs.DrillDeck.{drill_deck, drill_entry, drill_file};
ghost use Rattle.drill_deck.specs.DrillDeck.{drill_terminal, drill_terminals};

use arrayvec::ArrayVec;
use basic_values::limits::MOST_CALLS;
use basic_values::{KeyLine, NoMemory, Series};
use deck_reader::{Deck, Terminal};
use itoa::Buffer;
use monitor_calls::{
    Account, AccountEntry, FileEntry, FileName, Page, Short, TerminalName, Volume,
};
use std::alloc::Global;

/// The login, the program, and what is typed after it.
static KEYS: [&str; 16] = [
    "HELLO 100,5;DEMO",
    "10 ON ERROR GOTO 100",
    "20 OPEN \"COUNT.DAT\" AS FILE 1%, MODE 1%",
    "30 FIELD #1%, 2% AS C$",
    "40 FOR I%=1% TO 20%",
    "50 GET #1%, RECORD 1%",
    "60 LSET C$=CVT%$(CVT$%(C$)+1%)",
    "70 PUT #1%, RECORD 1%",
    "80 NEXT I%",
    "90 CLOSE 1% : GOTO 130",
    "100 IF ERR<>19% THEN ON ERROR GOTO 0",
    "110 K%=0% : K%=K%+1% WHILE K%<1000%",
    "120 SLEEP 1% : RESUME",
    "130 END",
    "RUNNH",
    "BYE",
];

/// Returns the drill's deck with this number of terminals.
#[tactic(auto, using(crate::proofs::DeckLemmas::is_deck))]
pub fn drill_deck(alloc: Global, jobs: u32) -> Result<Deck, NoMemory>
    requires { jobs ≤ MOST_DRILL_JOBS }
    ensures deck { IfOk result (λ deck. deck_of deck ≡ drill_deck jobs) }
    ensures good { IsDeck (drill_deck jobs) }
{
    let mut accounts = Vec::new(alloc);
    accounts.push(entry())?;
    let mut files = Vec::new(alloc);
    files.push(count_file(alloc)?)?;
    let terminals = terminals(alloc, jobs)?;
    let volume = Volume {
        blocks: 8,
        accounts,
        files,
    };
    Ok(Deck { volume, terminals })
}

const OWNER: Account = Account {
    project: 100,
    programmer: 5,
};

/// Returns the account that all terminals use.
fn entry() -> AccountEntry
    ensures { result ≡ drill_entry }
{
    AccountEntry {
        account: OWNER,
        password: Short::of(b"DEMO").unwrap(),
        limit: MOST_CALLS,
        quota: 8,
    }
}

/// Returns the file in whose block they count: one page of zeros.
fn count_file(alloc: Global) -> Result<FileEntry, NoMemory>
    ensures { IfOk result (λ file. file ≡ drill_file) }
{
    let mut pages = Vec::new(alloc);
    pages.push(Page::new(alloc)?)?;
    let name = FileName {
        owner: OWNER,
        stem: Short::of(b"COUNT").unwrap(),
        extension: Short::of(b"DAT").unwrap(),
    };
    Ok(FileEntry {
        name,
        code: 60,
        pages: Series::from_vec(pages),
    })
}

/// Returns the terminals T1 and so on.
fn terminals(alloc: Global, jobs: u32) -> Result<Vec<Terminal>, NoMemory>
    requires { jobs ≤ MOST_DRILL_JOBS }
    ensures { IfOk result (λ terminals. map terminal_of terminals.items ≡ drill_terminals jobs) }
{
    let mut terminals = Vec::new(alloc);
    for place in 0..jobs {
        terminals.push(terminal(alloc, place + 1)?)?;
    }
    Ok(terminals)
}

fn terminal(alloc: Global, number: u32) -> Result<Terminal, NoMemory>
    requires { number ≤ MOST_DRILL_JOBS }
    ensures { IfOk result (λ terminal. terminal_of terminal ≡ drill_terminal number) }
{
    let keys = key_lines(alloc, &KEYS)?;
    let name = name_of(number);
    Ok(Terminal { name, keys })
}

/// Returns T and the number.
#[tactic(auto, using(crate::proofs::NameLemmas::is_name))]
fn name_of(number: u32) -> TerminalName
    requires { number ≤ MOST_DRILL_JOBS }
    ensures { result ≡ codes "T" ++ decimal number }
{
    let mut buffer = Buffer::new();
    let mut name = ArrayVec::<u8, 11>::new();
    name.push(b'T');
    name.try_extend_from_slice(buffer.format(number).as_bytes())
        .unwrap();
    TerminalName::of(name.as_slice()).unwrap()
}

fn key_lines(alloc: Global, lines: &[&str]) -> Result<Vec<KeyLine>, NoMemory>
    requires { list_all (λ line. nat_le (length line.now) LINE_LENGTH) lines.now ≡ true }
    ensures { IfOk result (λ keys. keys.items ≡ map (λ line. line.now) lines.now) }
{
    let mut keys = Vec::new(alloc);
    for line in lines {
        keys.push(KeyLine::of(alloc, line.as_bytes())?)?;
    }
    Ok(keys)
}
