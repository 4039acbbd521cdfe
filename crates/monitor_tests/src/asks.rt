//! What jobs ask, in few words, and the requests that they make.

ghost use Rattle.std.specs.Prelude.{◌<◌};

use basic_values::limits::LONGEST_MESSAGE;
use basic_values::{Series, Text};
use monitor_calls::{Account, FileName, OpenKind, Page, Request, Short};
use std::alloc::Global;
use std::test::Fail;

/// The owner of each file.
pub(crate) const OWNER: Account = Account {
    project: 100,
    programmer: 5,
};

/// An account of the owner's project.
pub(crate) const NEIGHBOUR: Account = Account {
    project: 100,
    programmer: 6,
};

/// An account of another project.
pub(crate) const STRANGER: Account = Account {
    project: 200,
    programmer: 1,
};

/// One byte more than a message, or a string that is printed, may have.
const LONG: [u8; LONGEST_MESSAGE + 1] = [65; LONGEST_MESSAGE + 1];

/// One of the two jobs.
#[derive(Clone, Copy)]
pub(crate) enum Job {
    Zero,
    One,
}

impl Job {
    pub(crate) fn number(self) -> u32
        ensures { result < 2 }
    {
        match self {
            Job::Zero => 0,
            Job::One => 1,
        }
    }
}

/// The name of a receiver, and the stem of a file with the extension DAT.
#[derive(Clone, Copy)]
pub(crate) enum Label {
    First,
    Second,
    Third,
}

impl Label {
    pub(crate) fn text(self) -> &'static [u8] {
        match self {
            Label::First => b"FIRST",
            Label::Second => b"SECOND",
            Label::Third => b"THIRD",
        }
    }
}

/// What a job asks. Files are opened for update, and a page or a message is of one byte throughout.
#[derive(Clone, Copy)]
pub(crate) enum Ask {
    Login(Account),
    /// A login with another password.
    Guess(Account),
    Logout,
    /// The channel, the file, how it is opened, and the code of a new one.
    Open(u8, Label, OpenKind, Option<u8>),
    Close(u8),
    /// The channel and the block.
    Get(u8, u16),
    /// The channel, the block and the byte.
    Put(u8, u16, u8),
    /// The channel, the first block, and how many.
    GetRecord(u8, u16, u8),
    /// The channel, the first block, and the byte of each page.
    PutRecord(u8, u16, &'static [u8]),
    Unlock(u8),
    Kill(Label),
    Rename(Label, Label),
    /// The file of the owner at this index.
    Listed(u16),
    /// The receiver, and how many messages it takes.
    Declare(Label, u8),
    Remove,
    /// The receiver, and the one byte of the message.
    Send(Label, u8),
    /// A message that is one byte too long.
    SendLong(Label),
    Receive,
    Sleep,
    Tick,
    Assign,
    Deassign,
    OpenPrinter,
    /// The longest string that is printed at once, of this byte.
    Print(u8),
    /// A string that is one byte too long.
    PrintLong,
    ClosePrinter,
    Status,
}

pub(crate) fn short(text: &[u8]) -> Result<Short, Fail> {
    Ok(Short::of(text).ok_or("no short text")?)
}

pub(crate) fn file(label: Label) -> Result<FileName, Fail> {
    let stem = short(label.text())?;
    let extension = short(b"DAT")?;
    Ok(FileName {
        owner: OWNER,
        stem,
        extension,
    })
}

fn page(alloc: Global, byte: u8) -> Result<Page, Fail> {
    let mut page = Page::new(alloc)?;
    page.fill(&[byte; 512]);
    Ok(page)
}

/// Returns the request that a job makes.
pub(crate) fn request(alloc: Global, ask: Ask) -> Result<Request, Fail> {
    match ask {
        Ask::Login(account) => login(account, b"DEMO"),
        Ask::Guess(account) => login(account, b"DEMON"),
        Ask::Open(channel, label, kind, code) => open(channel, label, kind, code),
        Ask::Put(channel, block, byte) => put(alloc, channel, block, byte),
        Ask::PutRecord(channel, block, bytes) => put_record(alloc, channel, block, bytes),
        Ask::Kill(label) => kill(label),
        Ask::Rename(old, new) => rename(old, new),
        Ask::Declare(label, most) => declare(label, most),
        Ask::Send(label, byte) => send(alloc, label, &[byte]),
        Ask::SendLong(label) => send(alloc, label, &LONG),
        Ask::Print(byte) => print(alloc, &[byte; LONGEST_MESSAGE]),
        Ask::PrintLong => print(alloc, &LONG),
        _ => Ok(plain(ask)),
    }
}

/// Returns a request that has no name and nothing that takes memory.
fn plain(ask: Ask) -> Request {
    match ask {
        Ask::Logout => Request::Logout,
        Ask::Close(channel) => Request::CloseFile { channel },
        Ask::Get(channel, block) => Request::Get { channel, block },
        Ask::GetRecord(channel, block, count) => Request::GetRecord {
            channel,
            block,
            count,
        },
        Ask::Unlock(channel) => Request::Unlock { channel },
        Ask::Listed(index) => Request::Directory {
            owner: OWNER,
            index,
        },
        Ask::Remove => Request::Remove,
        Ask::Receive => Request::Receive,
        Ask::Sleep => Request::Sleep { seconds: 1 },
        Ask::Tick => Request::Tick,
        Ask::Assign => Request::Assign,
        Ask::Deassign => Request::Deassign,
        Ask::OpenPrinter => Request::OpenPrinter,
        Ask::ClosePrinter => Request::ClosePrinter,
        _ => Request::Status,
    }
}

fn login(account: Account, password: &[u8]) -> Result<Request, Fail> {
    let password = short(password)?;
    Ok(Request::Login { account, password })
}

fn open(channel: u8, label: Label, kind: OpenKind, code: Option<u8>) -> Result<Request, Fail> {
    let name = file(label)?;
    Ok(Request::OpenFile {
        channel,
        name,
        kind,
        update: true,
        code,
    })
}

fn put(alloc: Global, channel: u8, block: u16, byte: u8) -> Result<Request, Fail> {
    let page = page(alloc, byte)?;
    Ok(Request::Put {
        channel,
        block,
        page,
    })
}

fn put_record(alloc: Global, channel: u8, block: u16, bytes: &[u8]) -> Result<Request, Fail> {
    let mut pages = Vec::new(alloc);
    for byte in bytes {
        pages.push(page(alloc, *byte)?)?;
    }
    Ok(Request::PutRecord {
        channel,
        block,
        pages: Series::from_vec(pages),
    })
}

fn kill(label: Label) -> Result<Request, Fail> {
    let name = file(label)?;
    Ok(Request::Kill { name })
}

fn rename(old: Label, new: Label) -> Result<Request, Fail> {
    let old = file(old)?;
    let new = file(new)?;
    Ok(Request::Rename {
        old,
        new,
        code: None,
    })
}

fn declare(label: Label, most: u8) -> Result<Request, Fail> {
    let name = short(label.text())?;
    Ok(Request::Declare { name, most })
}

fn send(alloc: Global, label: Label, bytes: &[u8]) -> Result<Request, Fail> {
    let name = short(label.text())?;
    let text = Text::of(alloc, bytes).ok().ok_or("no text")?;
    Ok(Request::Send { name, text })
}

fn print(alloc: Global, bytes: &[u8]) -> Result<Request, Fail> {
    let text = Text::of(alloc, bytes).ok().ok_or("no text")?;
    Ok(Request::Print { text })
}
