//! The monitor's calls: requests, replies, and both as entries of a history.

ghost use Rattle.std.specs.Prelude.{◌≡◌};
ghost use Rattle.monitor_calls.specs.Proper.{IsProperRequest, IsProperReply, IsProperEntry};
ghost use Rattle.monitor_calls.specs.Requests.{is_get};
ghost use Rattle.monitor_calls.specs.Rooms.{HasRoom};
ghost use Rattle.monitor_calls.specs.declared.rooms.ReplyRoom.TheVariants.{Small};

use crate::files::{FileName, OpenKind};
use crate::names::{Account, Short};
use crate::pages::Page;
use crate::ranges::{
    read_account, read_name, read_option, read_page, read_pages, read_short, read_text,
};
use crate::rooms::ReplyRoom;
use basic_values::{Fault, Series, Text};

/// What a job asks of the monitor.
#[derive(Drop)]
pub enum Request {
    /// The job asks to log in to an account.
    Login {
        account: Account,
        password: Short,
    },
    /// The job ends.
    Logout,
    /// Opens a channel on a file, for update or not. A new file gets this code, or 60 without one.
    OpenFile {
        channel: u8,
        name: FileName,
        kind: OpenKind,
        update: bool,
        code: Option<u8>,
    },
    /// Closes a channel.
    CloseFile {
        channel: u8,
    },
    /// Reads a block of a channel's file, counted from 1.
    Get {
        channel: u8,
        block: u16,
    },
    /// Writes a block of a channel's file. Past its end the file grows.
    Put {
        channel: u8,
        block: u16,
        page: Page,
    },
    /// Reads a record of a channel's file: this many blocks from this one on, 1 to 3, or fewer at
    /// the end of the file. A channel for update then locks these blocks alone.
    GetRecord {
        channel: u8,
        block: u16,
        count: u8,
    },
    /// Writes a record of a channel's file: 1 to 3 blocks from this one on. Past its end the file
    /// grows.
    PutRecord {
        channel: u8,
        block: u16,
        pages: Series<Page>,
    },
    /// Releases what a channel locks.
    Unlock {
        channel: u8,
    },
    /// Deletes a file.
    Kill {
        name: FileName,
    },
    /// Renames a file, and gives it a code if there is one.
    Rename {
        old: FileName,
        new: FileName,
        code: Option<u8>,
    },
    /// Asks for the file at an index, from 0, among those of an owner.
    Directory {
        owner: Account,
        index: u16,
    },
    /// Declares a receiver of that name for the job, which holds at most this many messages.
    Declare {
        name: Short,
        most: u8,
    },
    /// Removes the job's receiver.
    Remove,
    /// Sends a message to the receiver of a name.
    Send {
        name: Short,
        text: Text,
    },
    /// Takes the oldest message that waits for the job.
    Receive,
    /// The job sleeps for this many seconds.
    Sleep {
        seconds: u16,
    },
    /// The job has used another 1,000 units.
    Tick,
    /// Assigns the printer to the job until it deassigns it.
    Assign,
    /// Deassigns the printer.
    Deassign,
    /// Begins a print job.
    OpenPrinter,
    /// Prints up to 512 bytes in the print job.
    Print {
        text: Text,
    },
    /// Ends the print job.
    ClosePrinter,
    /// Asks for the job's number, its account, and how many calls it has made.
    Status,
}

/// What the monitor replies.
#[derive(Drop)]
pub enum Reply {
    Done,
    /// A channel is open on a file of this many blocks, with these rights.
    Opened {
        blocks: u16,
        read: bool,
        write: bool,
    },
    /// The block that was read.
    Block(Page),
    /// The blocks that were read.
    Record(Series<Page>),
    /// A file with its code. Its number of blocks is given only to a job that may read or write it.
    Name {
        name: FileName,
        code: u8,
        blocks: Option<u16>,
    },
    /// A message, with the job and the account that sent it.
    Message {
        job: u32,
        account: Account,
        text: Text,
    },
    /// The job's number, its account, and its calls since its login, including this one.
    State {
        job: u32,
        account: Account,
        calls: u16,
    },
    /// Refused, with the number of the error.
    Failed(Fault),
    /// The job has used the calls of its account, and was ended.
    Expired,
}

impl Request {
    /// Returns whether it is a Get, for which the job supplies a blank page.
    pub fn is_get(&self) -> bool
        ensures { result ≡ is_get self.now }
    {
        matches!(self, Request::Get { .. })
    }

    /// Reads each number and string once: what is read is in its range, and that is all that a
    /// caller learns.
    fn read(&self)
        ensures { IsProperRequest self.now }
    {
        match self {
            Request::Login { account, password } => {
                read_account(account);
                read_short(password);
            }
            Request::OpenFile {
                channel,
                name,
                code,
                ..
            } => {
                let _channel = *channel;
                read_name(name);
                read_option(code);
            }
            Request::CloseFile { channel } | Request::Unlock { channel } => {
                let _channel = *channel;
            }
            Request::Get { channel, block } => {
                let _place = (*channel, *block);
            }
            Request::Put {
                channel,
                block,
                page,
            } => {
                let _place = (*channel, *block);
                read_page(page);
            }
            Request::GetRecord {
                channel,
                block,
                count,
            } => {
                let _place = (*channel, *block, *count);
            }
            Request::PutRecord {
                channel,
                block,
                pages,
            } => {
                let _place = (*channel, *block);
                read_pages(pages);
            }
            Request::Kill { name } => read_name(name),
            Request::Rename { old, new, code } => {
                read_name(old);
                read_name(new);
                read_option(code);
            }
            Request::Directory { owner, index } => {
                read_account(owner);
                let _index = *index;
            }
            Request::Declare { name, most } => {
                read_short(name);
                let _most = *most;
            }
            Request::Send { name, text } => {
                read_short(name);
                read_text(text);
            }
            Request::Print { text } => read_text(text),
            Request::Sleep { seconds } => {
                let _seconds = *seconds;
            }
            Request::Logout
            | Request::Remove
            | Request::Receive
            | Request::Tick
            | Request::Assign
            | Request::Deassign
            | Request::OpenPrinter
            | Request::ClosePrinter
            | Request::Status => {}
        }
    }
}

impl Reply {
    /// Reads each number and string, as `Request::read` does.
    fn read(&self)
        ensures { IsProperReply self.now }
    {
        match self {
            Reply::Opened { blocks, .. } => {
                let _blocks = *blocks;
            }
            Reply::Block(page) => read_page(page),
            Reply::Record(pages) => read_pages(pages),
            Reply::Name { name, code, blocks } => {
                read_name(name);
                let _code = *code;
                if let Some(blocks) = blocks {
                    let _blocks = *blocks;
                }
            }
            Reply::Message { job, account, text } => {
                let _job = *job;
                read_account(account);
                read_text(text);
            }
            Reply::State {
                job,
                account,
                calls,
            } => {
                let _numbers = (*job, *calls);
                read_account(account);
            }
            Reply::Failed(fault) => {
                let _ = fault.number();
            }
            Reply::Done | Reply::Expired => {}
        }
    }

    /// Returns the same reply, for a history that keeps a copy of it. It takes no memory except the
    /// room that is passed in.
    pub fn again(&self, room: ReplyRoom) -> Reply
        requires { HasRoom self.now room }
        ensures { result ≡ self.now }
    {
        match self {
            Reply::Block(page) => Reply::Block(room.page_like(page)),
            Reply::Record(_) => Reply::Record(room.pages()),
            Reply::Message { job, account, .. } => Reply::Message {
                job: *job,
                account: *account,
                text: room.text(),
            },
            Reply::Done
            | Reply::Opened { .. }
            | Reply::Name { .. }
            | Reply::State { .. }
            | Reply::Failed(_)
            | Reply::Expired => self.plain_again(),
        }
    }

    /// Returns the same reply if it has no page and no string. This is a function of its own: in
    /// one match, the unused room would have to be dropped at the end of each arm.
    fn plain_again(&self) -> Reply
        requires { HasRoom self.now Small }
        ensures { result ≡ self.now }
    {
        match self {
            Reply::Done => Reply::Done,
            Reply::Opened {
                blocks,
                read,
                write,
            } => Reply::Opened {
                blocks: *blocks,
                read: *read,
                write: *write,
            },
            Reply::Name { name, code, blocks } => Reply::Name {
                name: *name,
                code: *code,
                blocks: *blocks,
            },
            Reply::State {
                job,
                account,
                calls,
            } => Reply::State {
                job: *job,
                account: *account,
                calls: *calls,
            },
            Reply::Failed(fault) => Reply::Failed(*fault),
            Reply::Expired => Reply::Expired,
            Reply::Block(_) | Reply::Record(_) | Reply::Message { .. } => unreachable!(),
        }
    }
}

/// One call of a history: which job asked what, and the reply.
#[derive(Drop)]
pub struct Entry {
    /// The job's number, from 0.
    pub job: u32,
    pub request: Request,
    pub reply: Reply,
}

impl Entry {
    /// Returns the entry of a call, whose numbers and strings are in their ranges.
    pub fn new(job: u32, request: Request, reply: Reply) -> Entry
        ensures parts { result ≡ record { job = job; request = request; reply = reply } }
        ensures proper { IsProperEntry result }
    {
        request.read();
        reply.read();
        Entry {
            job,
            request,
            reply,
        }
    }
}
