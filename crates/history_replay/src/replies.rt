//! Whether two replies are the same.

ghost use Rattle.std.specs.Prelude.{◌≡◌, ◌↔◌, IsTrue};

use crate::values::{same_account, same_blocks, same_file, same_page, same_pages};
use basic_values::{Fault, Text, identical};
use monitor_calls::{Account, FileName, Page, Reply};

/// Returns whether both say the same.
pub(crate) fn same_reply(a: &Reply, b: &Reply) -> bool
    ensures { IsTrue result ↔ (a.now ≡ b.now) }
{
    match a {
        Reply::Done => matches!(b, Reply::Done),
        Reply::Opened {
            blocks,
            read,
            write,
        } => is_opened(b, *blocks, *read, *write),
        Reply::Block(page) => is_block(b, page),
        Reply::Record(pages) => is_record(b, pages.as_slice()),
        Reply::Name { name, code, blocks } => is_name(b, name, *code, *blocks),
        Reply::Message { job, account, text } => is_message(b, *job, *account, text),
        Reply::State {
            job,
            account,
            calls,
        } => is_state(b, *job, *account, *calls),
        Reply::Failed(fault) => is_failed(b, *fault),
        Reply::Expired => matches!(b, Reply::Expired),
    }
}

fn is_opened(reply: &Reply, blocks: u16, read: bool, write: bool) -> bool
    ensures { IsTrue result ↔ (reply.now ≡ Reply.Opened blocks read write) }
{
    match reply {
        Reply::Opened {
            blocks: many,
            read: reads,
            write: writes,
        } => *many == blocks && *reads == read && *writes == write,
        _ => false,
    }
}

fn is_block(reply: &Reply, page: &Page) -> bool
    ensures { IsTrue result ↔ (reply.now ≡ Reply.Block page.now) }
{
    match reply {
        Reply::Block(bytes) => same_page(bytes, page),
        _ => false,
    }
}

fn is_record(reply: &Reply, pages: &[Page]) -> bool
    ensures { IsTrue result ↔ (reply.now ≡ Reply.Record pages.now) }
{
    match reply {
        Reply::Record(series) => same_pages(series.as_slice(), pages),
        _ => false,
    }
}

fn is_name(reply: &Reply, name: &FileName, code: u8, blocks: Option<u16>) -> bool
    ensures { IsTrue result ↔ (reply.now ≡ Reply.Name name.now code blocks) }
{
    match reply {
        Reply::Name {
            name: file,
            code: number,
            blocks: many,
        } => same_file(file, name) && *number == code && same_blocks(*many, blocks),
        _ => false,
    }
}

fn is_message(reply: &Reply, job: u32, account: Account, text: &Text) -> bool
    ensures { IsTrue result ↔ (reply.now ≡ Reply.Message job account text.now) }
{
    match reply {
        Reply::Message {
            job: sender,
            account: other,
            text: bytes,
        } => {
            *sender == job
                && same_account(*other, account)
                && identical(bytes.as_bytes(), text.as_bytes())
        }
        _ => false,
    }
}

fn is_state(reply: &Reply, job: u32, account: Account, calls: u16) -> bool
    ensures { IsTrue result ↔ (reply.now ≡ Reply.State job account calls) }
{
    match reply {
        Reply::State {
            job: number,
            account: other,
            calls: many,
        } => *number == job && same_account(*other, account) && *many == calls,
        _ => false,
    }
}

fn is_failed(reply: &Reply, fault: Fault) -> bool
    ensures { IsTrue result ↔ (reply.now ≡ Reply.Failed fault) }
{
    match reply {
        Reply::Failed(number) => number.number() == fault.number(),
        _ => false,
    }
}
