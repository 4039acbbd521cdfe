//! The replies of lines.

ghost use Rattle.std.specs.Prelude.{◌≡◌};
ghost use Rattle.history_reader.specs.LineFields.{ReadsAs};
ghost use Rattle.history_reader.specs.LineForms.{opened_read, block_read, record_read};
ghost use Rattle.history_reader.specs.LineForms.{file_reply_read, letter_read, state_read};
ghost use Rattle.history_reader.specs.LineForms.{failed_read, told_reply_read, reply_by};
ghost use Rattle.history_reader.specs.LineForms.{reply_read};

use crate::failures::LineError;
use crate::fields::{
    account_field, blocks_field, byte_field, half_field, long_field, name, truth_field, word,
};
use crate::hexes::{page_field, pages_field, text_field};
use basic_values::Fault;
use monitor_calls::Reply;
use std::alloc::Global;

/// Reads the reply that a text begins with.
#[tactic(auto, unfolding(crate::specs::LineForms::reply_read))]
pub(crate) fn reply(alloc: Global, text: &[u8]) -> Result<Reply, LineError>
    ensures { ReadsAs (λ x. x) result (reply_read text.now) }
{
    let (word, rest) = word(text);
    reply_by(alloc, word, rest)
}

#[tactic(auto, unfolding(crate::specs::LineForms::reply_by))]
fn reply_by(alloc: Global, word: &[u8], rest: &[u8]) -> Result<Reply, LineError>
    ensures { ReadsAs (λ x. x) result (reply_by word.now rest.now) }
{
    if word == b"DONE".as_slice() {
        Ok(Reply::Done)
    } else if word == b"FAILED".as_slice() {
        failed(rest)
    } else if word == b"OPENED".as_slice() {
        opened(rest)
    } else if word == b"BLOCK".as_slice() {
        block(alloc, rest)
    } else if word == b"RECORD".as_slice() {
        record(alloc, rest)
    } else if word == b"EXPIRED".as_slice() {
        Ok(Reply::Expired)
    } else {
        told_reply(alloc, word, rest)
    }
}

/// Reads a reply with a file, a message or the job's status.
#[tactic(auto, unfolding(crate::specs::LineForms::told_reply_read))]
fn told_reply(alloc: Global, word: &[u8], rest: &[u8]) -> Result<Reply, LineError>
    ensures { ReadsAs (λ x. x) result (told_reply_read word.now rest.now) }
{
    if word == b"NAME".as_slice() {
        file_reply(rest)
    } else if word == b"MESSAGE".as_slice() {
        message(alloc, rest)
    } else if word == b"STATE".as_slice() {
        state(rest)
    } else {
        Err(LineError::Wrong)
    }
}

#[tactic(auto, unfolding(crate::specs::LineForms::failed_read))]
fn failed(text: &[u8]) -> Result<Reply, LineError>
    ensures { ReadsAs (λ x. x) result (failed_read text.now) }
{
    let (number, _) = byte_field(text)?;
    Ok(Reply::Failed(Fault::new(number)))
}

#[tactic(auto, unfolding(crate::specs::LineForms::opened_read))]
fn opened(text: &[u8]) -> Result<Reply, LineError>
    ensures { ReadsAs (λ x. x) result (opened_read text.now) }
{
    let (blocks, rest) = half_field(text)?;
    let (read, rest) = truth_field(rest)?;
    let (write, _) = truth_field(rest)?;
    Ok(Reply::Opened {
        blocks,
        read,
        write,
    })
}

#[tactic(auto, unfolding(crate::specs::LineForms::block_read))]
fn block(alloc: Global, text: &[u8]) -> Result<Reply, LineError>
    ensures { ReadsAs (λ x. x) result (block_read text.now) }
{
    let (page, _) = page_field(alloc, text)?;
    Ok(Reply::Block(page))
}

#[tactic(auto, unfolding(crate::specs::LineForms::record_read))]
fn record(alloc: Global, text: &[u8]) -> Result<Reply, LineError>
    ensures { ReadsAs (λ x. x) result (record_read text.now) }
{
    let (pages, _) = pages_field(alloc, text)?;
    Ok(Reply::Record(pages))
}

#[tactic(auto, unfolding(crate::specs::LineFields::field_by, crate::specs::LineForms::file_reply_read))]
fn file_reply(text: &[u8]) -> Result<Reply, LineError>
    ensures { ReadsAs (λ x. x) result (file_reply_read text.now) }
{
    let (text, rest) = word(text);
    let name = name(text).ok_or(LineError::Wrong)?;
    let (code, rest) = byte_field(rest)?;
    let (blocks, _) = blocks_field(rest)?;
    Ok(Reply::Name { name, code, blocks })
}

#[tactic(auto, unfolding(crate::specs::LineForms::letter_read))]
fn message(alloc: Global, text: &[u8]) -> Result<Reply, LineError>
    ensures { ReadsAs (λ x. x) result (letter_read text.now) }
{
    let (job, rest) = long_field(text)?;
    let (account, rest) = account_field(rest)?;
    let (message, _) = text_field(alloc, rest)?;
    Ok(Reply::Message {
        job,
        account,
        text: message,
    })
}

#[tactic(auto, unfolding(crate::specs::LineForms::state_read))]
fn state(text: &[u8]) -> Result<Reply, LineError>
    ensures { ReadsAs (λ x. x) result (state_read text.now) }
{
    let (job, rest) = long_field(text)?;
    let (account, rest) = account_field(rest)?;
    let (calls, _) = half_field(rest)?;
    Ok(Reply::State {
        job,
        account,
        calls,
    })
}
