//! A port that plays a script, and the requests to it as text.

use crate::told::Told;
use basic_values::{Fault, Stop};
use monitor_calls::{Account, Event, FileName, OpenKind, Page, Reply, Request, ScriptPort, Short};
use std::alloc::Global;
use std::test::Fail;

/// A reply of the script, in few words.
#[derive(Clone, Copy)]
pub(crate) enum Said {
    Done,
    Expired,
    Failed(u8),
    /// A file of this many blocks is open.
    Opened(u16),
    /// A block that is full of a byte.
    Block(u8),
    /// A file by its stem and its extension, with its code, and its blocks if they are given.
    File(&'static [u8], &'static [u8], u8, Option<u16>),
}

/// Returns a file's name, in the account 100,5.
pub(crate) fn named(stem: &[u8], extension: &[u8]) -> Result<FileName, Fail> {
    let owner = Account {
        project: 100,
        programmer: 5,
    };
    Ok(FileName {
        owner,
        stem: Short::of(stem).ok_or("no stem")?,
        extension: Short::of(extension).ok_or("no extension")?,
    })
}

/// Returns a page that is full of a byte.
pub(crate) fn page_of(alloc: Global, byte: u8) -> Result<Page, Fail> {
    let mut page = Page::new(alloc)?;
    page.fill(&[byte; 512]);
    Ok(page)
}

fn reply_of(alloc: Global, said: Said) -> Result<Reply, Fail> {
    match said {
        Said::Done => Ok(Reply::Done),
        Said::Expired => Ok(Reply::Expired),
        Said::Failed(number) => Ok(Reply::Failed(Fault::new(number))),
        Said::Opened(blocks) => Ok(opened(blocks)),
        Said::Block(byte) => Ok(Reply::Block(page_of(alloc, byte)?)),
        Said::File(stem, extension, code, blocks) => Ok(Reply::Name {
            name: named(stem, extension)?,
            code,
            blocks,
        }),
    }
}

fn opened(blocks: u16) -> Reply {
    Reply::Opened {
        blocks,
        read: true,
        write: false,
    }
}

/// Returns a port with these replies.
pub(crate) fn port_of(alloc: Global, script: &[Said]) -> Result<ScriptPort, Fail> {
    let mut replies = Vec::new(alloc);
    for said in script {
        push_reply(alloc, &mut replies, *said)?;
    }
    Ok(ScriptPort::new(alloc, replies))
}

fn push_reply(alloc: Global, replies: &mut Vec<Reply>, said: Said) -> Result<(), Fail> {
    Ok(replies.push(reply_of(alloc, said)?)?)
}

/// Returns the requests, one to a line.
fn asked(alloc: Global, port: &ScriptPort) -> Told {
    let mut told = Told::new(alloc);
    for event in port.log() {
        put_event(&mut told, event);
    }
    told
}

fn put_event(told: &mut Told, event: &Event) {
    if let Event::Asked { request, .. } = event {
        put_request(told, request);
        told.put("\n");
    }
}

fn put_request(told: &mut Told, request: &Request) {
    match request {
        Request::OpenFile {
            channel,
            kind,
            update,
            code,
            ..
        } => {
            told.count(kind_told(*kind), u16::from(*channel));
            told.put(if *update { " true" } else { " false" });
            told.count(" ", u16::from(code.unwrap_or(99)))
        }
        Request::CloseFile { channel } => told.count("close ", u16::from(*channel)),
        Request::Get { channel, block } => {
            told.count("get ", u16::from(*channel));
            told.count(" ", *block)
        }
        Request::Put {
            channel,
            block,
            page,
        } => {
            told.count("put ", u16::from(*channel));
            told.count(" ", *block);
            told.count(" ", u16::from(page.as_bytes()[0]))
        }
        Request::Kill { .. } => told.put("kill"),
        Request::Directory { owner, index } => {
            told.count("directory ", u16::from(owner.project));
            told.count(",", u16::from(owner.programmer));
            told.count(" ", *index)
        }
        _ => told.request(request),
    }
}

fn kind_told(kind: OpenKind) -> &'static str {
    match kind {
        OpenKind::Input => "input ",
        OpenKind::Output => "output ",
        OpenKind::Either => "either ",
        OpenKind::Fresh => "fresh ",
    }
}

/// Returns how a call ended: 0 if nothing stopped it, the number of its fault, and 100 if the job's
/// calls are used up.
pub(crate) fn ending<T: Drop>(outcome: &Result<T, Stop>) -> u8 {
    match outcome {
        Ok(_) => 0,
        Err(stop) => stop_told(stop),
    }
}

fn stop_told(stop: &Stop) -> u8 {
    match stop {
        Stop::Fault(fault) => fault.number(),
        Stop::Expired => 100,
        Stop::Halt(_) => 101,
        Stop::NoMemory => 102,
    }
}

/// Fails with the requests, unless they are these, and the call ended in this way.
pub(crate) fn expect_asked(
    alloc: Global,
    port: &ScriptPort,
    requests: &str,
    ending: u8,
    wanted: u8,
) -> Result<(), Fail> {
    let told = asked(alloc, port);
    if ending == wanted {
        told.expect(requests)
    } else {
        Err(Fail::from("the call ends otherwise"))
    }
}
