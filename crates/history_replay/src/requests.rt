//! Whether two requests are the same.

ghost use Rattle.std.specs.Prelude.{◌≡◌, ◌↔◌, IsTrue};

use crate::values::{
    same_account, same_code, same_file, same_kind, same_page, same_pages, same_short,
};
use basic_values::{Text, identical};
use monitor_calls::{Account, FileName, OpenKind, Page, Request, Short};

/// Returns whether both ask the same.
pub(crate) fn same_request(a: &Request, b: &Request) -> bool
    ensures { IsTrue result ↔ (a.now ≡ b.now) }
{
    match a {
        Request::Login { account, password } => is_login(b, *account, password),
        Request::Logout => matches!(b, Request::Logout),
        Request::OpenFile {
            channel,
            name,
            kind,
            update,
            code,
        } => is_open_file(b, *channel, name, *kind, *update, *code),
        Request::CloseFile { channel } => is_close_file(b, *channel),
        Request::Get { channel, block } => is_get(b, *channel, *block),
        Request::Put {
            channel,
            block,
            page,
        } => is_put(b, *channel, *block, page),
        Request::GetRecord {
            channel,
            block,
            count,
        } => is_get_record(b, *channel, *block, *count),
        Request::PutRecord {
            channel,
            block,
            pages,
        } => is_put_record(b, *channel, *block, pages.as_slice()),
        Request::Unlock { channel } => is_unlock(b, *channel),
        Request::Kill { name } => is_kill(b, name),
        Request::Rename { old, new, code } => is_rename(b, old, new, *code),
        Request::Directory { owner, index } => is_directory(b, *owner, *index),
        Request::Declare { name, most } => is_declare(b, name, *most),
        Request::Remove => matches!(b, Request::Remove),
        Request::Send { name, text } => is_send(b, name, text),
        Request::Receive => matches!(b, Request::Receive),
        Request::Sleep { seconds } => is_sleep(b, *seconds),
        Request::Tick => matches!(b, Request::Tick),
        Request::Assign => matches!(b, Request::Assign),
        Request::Deassign => matches!(b, Request::Deassign),
        Request::OpenPrinter => matches!(b, Request::OpenPrinter),
        Request::Print { text } => is_print(b, text),
        Request::ClosePrinter => matches!(b, Request::ClosePrinter),
        Request::Status => matches!(b, Request::Status),
    }
}

fn is_login(request: &Request, account: Account, password: &Short) -> bool
    ensures { IsTrue result ↔ (request.now ≡ Request.Login account password.now) }
{
    match request {
        Request::Login {
            account: other,
            password: word,
        } => same_account(*other, account) && same_short(word, password),
        _ => false,
    }
}

fn is_open_file(
    request: &Request,
    channel: u8,
    name: &FileName,
    kind: OpenKind,
    update: bool,
    code: Option<u8>,
) -> bool
    ensures { IsTrue result
        ↔ (request.now ≡ Request.OpenFile channel name.now kind update code) }
{
    match request {
        Request::OpenFile {
            channel: other,
            name: file,
            kind: way,
            update: change,
            code: number,
        } => {
            *other == channel
                && same_file(file, name)
                && same_kind(*way, kind)
                && *change == update
                && same_code(*number, code)
        }
        _ => false,
    }
}

fn is_close_file(request: &Request, channel: u8) -> bool
    ensures { IsTrue result ↔ (request.now ≡ Request.CloseFile channel) }
{
    match request {
        Request::CloseFile { channel: other } => *other == channel,
        _ => false,
    }
}

fn is_get(request: &Request, channel: u8, block: u16) -> bool
    ensures { IsTrue result ↔ (request.now ≡ Request.Get channel block) }
{
    match request {
        Request::Get {
            channel: other,
            block: at,
        } => *other == channel && *at == block,
        _ => false,
    }
}

fn is_put(request: &Request, channel: u8, block: u16, page: &Page) -> bool
    ensures { IsTrue result ↔ (request.now ≡ Request.Put channel block page.now) }
{
    match request {
        Request::Put {
            channel: other,
            block: at,
            page: bytes,
        } => *other == channel && *at == block && same_page(bytes, page),
        _ => false,
    }
}

fn is_get_record(request: &Request, channel: u8, block: u16, count: u8) -> bool
    ensures { IsTrue result ↔ (request.now ≡ Request.GetRecord channel block count) }
{
    match request {
        Request::GetRecord {
            channel: other,
            block: at,
            count: many,
        } => *other == channel && *at == block && *many == count,
        _ => false,
    }
}

fn is_put_record(request: &Request, channel: u8, block: u16, pages: &[Page]) -> bool
    ensures { IsTrue result ↔ (request.now ≡ Request.PutRecord channel block pages.now) }
{
    match request {
        Request::PutRecord {
            channel: other,
            block: at,
            pages: series,
        } => *other == channel && *at == block && same_pages(series.as_slice(), pages),
        _ => false,
    }
}

fn is_unlock(request: &Request, channel: u8) -> bool
    ensures { IsTrue result ↔ (request.now ≡ Request.Unlock channel) }
{
    match request {
        Request::Unlock { channel: other } => *other == channel,
        _ => false,
    }
}

fn is_kill(request: &Request, name: &FileName) -> bool
    ensures { IsTrue result ↔ (request.now ≡ Request.Kill name.now) }
{
    match request {
        Request::Kill { name: file } => same_file(file, name),
        _ => false,
    }
}

fn is_rename(request: &Request, old: &FileName, new: &FileName, code: Option<u8>) -> bool
    ensures { IsTrue result ↔ (request.now ≡ Request.Rename old.now new.now code) }
{
    match request {
        Request::Rename {
            old: from,
            new: to,
            code: number,
        } => same_file(from, old) && same_file(to, new) && same_code(*number, code),
        _ => false,
    }
}

fn is_directory(request: &Request, owner: Account, index: u16) -> bool
    ensures { IsTrue result ↔ (request.now ≡ Request.Directory owner index) }
{
    match request {
        Request::Directory {
            owner: other,
            index: at,
        } => same_account(*other, owner) && *at == index,
        _ => false,
    }
}

fn is_declare(request: &Request, name: &Short, most: u8) -> bool
    ensures { IsTrue result ↔ (request.now ≡ Request.Declare name.now most) }
{
    match request {
        Request::Declare {
            name: other,
            most: many,
        } => same_short(other, name) && *many == most,
        _ => false,
    }
}

fn is_send(request: &Request, name: &Short, text: &Text) -> bool
    ensures { IsTrue result ↔ (request.now ≡ Request.Send name.now text.now) }
{
    match request {
        Request::Send {
            name: other,
            text: bytes,
        } => same_short(other, name) && identical(bytes.as_bytes(), text.as_bytes()),
        _ => false,
    }
}

fn is_sleep(request: &Request, seconds: u16) -> bool
    ensures { IsTrue result ↔ (request.now ≡ Request.Sleep seconds) }
{
    match request {
        Request::Sleep { seconds: other } => *other == seconds,
        _ => false,
    }
}

fn is_print(request: &Request, text: &Text) -> bool
    ensures { IsTrue result ↔ (request.now ≡ Request.Print text.now) }
{
    match request {
        Request::Print { text: bytes } => identical(bytes.as_bytes(), text.as_bytes()),
        _ => false,
    }
}
