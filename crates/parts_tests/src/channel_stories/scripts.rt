//! The replies of a script, as a story has them in words.

use crate::channel_stories::words::Words;
use basic_values::{Fault, Series};
use monitor_calls::{Page, Reply};
use record_fields::fill;
use std::alloc::Global;
use std::test::Fail;

/// Returns a page that begins with these bytes, with zeros after them.
fn page_with(alloc: Global, bytes: &[u8]) -> Result<Page, Fail> {
    let mut whole = [0u8; 512];
    fill(&mut whole, bytes);
    let mut page = Page::new(alloc)?;
    page.fill(&whole);
    Ok(page)
}

fn page_of(alloc: Global, byte: u8) -> Result<Page, Fail> {
    page_with(alloc, &[byte; 512])
}

/// Returns a page with a byte many times, and these bytes after them.
fn page_ended(alloc: Global, byte: u8, count: u16, end: &[u8]) -> Result<Page, Fail> {
    let mut bytes = Vec::new(alloc);
    bytes.resize(count as usize, byte)?;
    bytes.extend_from_slice(end)?;
    page_with(alloc, bytes.as_slice())
}

/// Returns, for each of these bytes, a page that is full of it.
fn pages_of(alloc: Global, bytes: &[u8]) -> Result<Series<Page>, Fail> {
    let mut pages = Vec::new(alloc);
    for byte in bytes {
        pages.push(page_of(alloc, *byte)?)?;
    }
    Ok(Series::from_vec(pages))
}

/// Adds this many blocks, each full of a byte.
fn push_blocks(alloc: Global, replies: &mut Vec<Reply>, byte: u8, count: u16) -> Result<(), Fail> {
    for _ in 0..count {
        replies.push(Reply::Block(page_of(alloc, byte)?))?;
    }
    Ok(())
}

fn opened() -> Reply {
    Reply::Opened {
        blocks: 2,
        read: true,
        write: true,
    }
}

/// Returns a block with a byte many times, and the bytes of a word after them.
fn ended(alloc: Global, words: &mut Words) -> Result<Page, Fail> {
    let (byte, count) = (words.byte(), words.count());
    page_ended(alloc, byte, count, words.word().as_bytes())
}

fn reply_of(alloc: Global, word: &str, words: &mut Words) -> Result<Reply, Fail> {
    match word {
        "done" => Ok(Reply::Done),
        "opened" => Ok(opened()),
        "failed" => Ok(Reply::Failed(Fault::new(words.byte()))),
        "block" => Ok(Reply::Block(page_with(alloc, words.word().as_bytes())?)),
        "ended" => Ok(Reply::Block(ended(alloc, words)?)),
        "record" => Ok(Reply::Record(pages_of(alloc, words.word().as_bytes())?)),
        "expired" => Ok(Reply::Expired),
        _ => Err("no reply")?,
    }
}

/// Adds the next reply, or the next blocks.
fn push_next(alloc: Global, replies: &mut Vec<Reply>, words: &mut Words) -> Result<(), Fail> {
    match words.word() {
        "blocks" => {
            let (byte, count) = (words.byte(), words.count());
            push_blocks(alloc, replies, byte, count)
        }
        word => Ok(replies.push(reply_of(alloc, word, words)?)?),
    }
}

/// Adds the replies to a step.
fn push_all(alloc: Global, replies: &mut Vec<Reply>, told: &'static str) -> Result<(), Fail> {
    let mut words = Words::of(told);
    for _ in 0..9 {
        if words.is_empty() && words.is_good() {
            return Ok(());
        }
        push_next(alloc, replies, &mut words)?;
    }
    Err("no replies")?
}

/// Returns the replies of a whole story.
pub(crate) fn replies_of(alloc: Global, steps: &[&'static str]) -> Result<Vec<Reply>, Fail> {
    let mut replies = Vec::new(alloc);
    for step in steps {
        push_all(alloc, &mut replies, parts_of(step).1)?;
    }
    Ok(replies)
}

/// Returns what is done in a step, the replies to it, and its result. A step without them is empty.
pub(crate) fn parts_of(step: &'static str) -> (&'static str, &'static str, &'static str) {
    let Some((call, behind)) = step.split_once(" | ") else {
        return ("", "", "");
    };
    match behind.split_once(" | ") {
        Some((replies, wanted)) => (call, replies, wanted),
        None => ("", "", ""),
    }
}
