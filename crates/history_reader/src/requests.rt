//! The requests of lines.

ghost use Rattle.std.specs.Prelude.{◌≡◌};
ghost use Rattle.history_reader.specs.LineFields.{ReadsAs};
ghost use Rattle.history_reader.specs.LineForms.{bare_read, login_read, open_read, close_read};
ghost use Rattle.history_reader.specs.LineForms.{get_read, put_read, getrec_read, putrec_read};
ghost use Rattle.history_reader.specs.LineForms.{unlock_read, kill_read, rename_read};
ghost use Rattle.history_reader.specs.LineForms.{directory_read, declare_read, send_read};
ghost use Rattle.history_reader.specs.LineForms.{sleep_read, print_read, job_request_read};
ghost use Rattle.history_reader.specs.LineForms.{block_request_read, file_request_read};
ghost use Rattle.history_reader.specs.LineForms.{request_read};

use crate::failures::LineError;
use crate::fields::{
    account_field, byte_field, code_field, half_field, kind_field, letters, name, truth_field, word,
};
use crate::hexes::{page_field, pages_field, password, text_field};
use monitor_calls::Request;
use std::alloc::Global;

/// Reads the request that a text begins with, and returns it and what comes after it.
#[tactic(auto, unfolding(crate::specs::LineForms::request_read))]
pub(crate) fn request(alloc: Global, text: &[u8]) -> Result<(Request, &[u8]), LineError>
    ensures { ReadsAs (λ x. (x.0, x.1.now)) result (request_read text.now) }
{
    let (word, rest) = word(text);
    match bare(word) {
        Some(request) => Ok((request, rest)),
        None => file_request(alloc, word, rest),
    }
}

/// Returns the request that consists of this word, if there is one.
#[tactic(auto, unfolding(crate::specs::LineForms::bare_read))]
fn bare(word: &[u8]) -> Option<Request>
    ensures { result ≡ bare_read word.now }
{
    if word == b"TICK".as_slice() {
        Some(Request::Tick)
    } else if word == b"LOGOUT".as_slice() {
        Some(Request::Logout)
    } else if word == b"STATUS".as_slice() {
        Some(Request::Status)
    } else if word == b"REMOVE".as_slice() {
        Some(Request::Remove)
    } else if word == b"RECEIVE".as_slice() {
        Some(Request::Receive)
    } else if word == b"ASSIGN".as_slice() {
        Some(Request::Assign)
    } else if word == b"DEASSIGN".as_slice() {
        Some(Request::Deassign)
    } else if word == b"LPOPEN".as_slice() {
        Some(Request::OpenPrinter)
    } else if word == b"LPCLOSE".as_slice() {
        Some(Request::ClosePrinter)
    } else {
        None
    }
}

/// Reads a request for files, or one of the next functions.
#[tactic(auto, unfolding(crate::specs::LineForms::file_request_read))]
fn file_request<'a>(
    alloc: Global,
    word: &[u8],
    rest: &'a [u8],
) -> Result<(Request, &'a [u8]), LineError>
    ensures { ReadsAs (λ x. (x.0, x.1.now)) result (file_request_read word.now rest.now) }
{
    if word == b"OPEN".as_slice() {
        open(rest)
    } else if word == b"CLOSE".as_slice() {
        close(rest)
    } else if word == b"KILL".as_slice() {
        kill(rest)
    } else if word == b"RENAME".as_slice() {
        rename(rest)
    } else if word == b"DIRECTORY".as_slice() {
        directory(rest)
    } else {
        block_request(alloc, word, rest)
    }
}

/// Reads a request for blocks, or one of the next function.
#[tactic(auto, unfolding(crate::specs::LineForms::block_request_read))]
fn block_request<'a>(
    alloc: Global,
    word: &[u8],
    rest: &'a [u8],
) -> Result<(Request, &'a [u8]), LineError>
    ensures { ReadsAs (λ x. (x.0, x.1.now)) result (block_request_read word.now rest.now) }
{
    if word == b"GET".as_slice() {
        get(rest)
    } else if word == b"PUT".as_slice() {
        put(alloc, rest)
    } else if word == b"GETREC".as_slice() {
        get_record(rest)
    } else if word == b"PUTREC".as_slice() {
        put_record(alloc, rest)
    } else if word == b"UNLOCK".as_slice() {
        unlock(rest)
    } else {
        job_request(alloc, word, rest)
    }
}

/// Reads a request for a login, for messages, for sleep or for a print job.
#[tactic(auto, unfolding(crate::specs::LineForms::job_request_read))]
fn job_request<'a>(
    alloc: Global,
    word: &[u8],
    rest: &'a [u8],
) -> Result<(Request, &'a [u8]), LineError>
    ensures { ReadsAs (λ x. (x.0, x.1.now)) result (job_request_read word.now rest.now) }
{
    if word == b"LOGIN".as_slice() {
        login(alloc, rest)
    } else if word == b"DECLARE".as_slice() {
        declare(rest)
    } else if word == b"SEND".as_slice() {
        send(alloc, rest)
    } else if word == b"SLEEP".as_slice() {
        sleep(rest)
    } else if word == b"LPPRINT".as_slice() {
        print(alloc, rest)
    } else {
        Err(LineError::Wrong)
    }
}

#[tactic(auto, unfolding(crate::specs::LineFields::field_by, crate::specs::LineForms::login_read))]
fn login(alloc: Global, text: &[u8]) -> Result<(Request, &[u8]), LineError>
    ensures { ReadsAs (λ x. (x.0, x.1.now)) result (login_read text.now) }
{
    let (account, rest) = account_field(text)?;
    let (text, rest) = word(rest);
    let password = password(alloc, text)?;
    Ok((Request::Login { account, password }, rest))
}

#[tactic(auto, unfolding(crate::specs::LineFields::field_by, crate::specs::LineForms::open_read))]
fn open(text: &[u8]) -> Result<(Request, &[u8]), LineError>
    ensures { ReadsAs (λ x. (x.0, x.1.now)) result (open_read text.now) }
{
    let (channel, rest) = byte_field(text)?;
    let (text, rest) = word(rest);
    let name = name(text).ok_or(LineError::Wrong)?;
    let (kind, rest) = kind_field(rest)?;
    let (update, rest) = truth_field(rest)?;
    let (code, rest) = code_field(rest)?;
    Ok((
        Request::OpenFile {
            channel,
            name,
            kind,
            update,
            code,
        },
        rest,
    ))
}

#[tactic(auto, unfolding(crate::specs::LineForms::close_read))]
fn close(text: &[u8]) -> Result<(Request, &[u8]), LineError>
    ensures { ReadsAs (λ x. (x.0, x.1.now)) result (close_read text.now) }
{
    let (channel, rest) = byte_field(text)?;
    Ok((Request::CloseFile { channel }, rest))
}

#[tactic(auto, unfolding(crate::specs::LineForms::get_read))]
fn get(text: &[u8]) -> Result<(Request, &[u8]), LineError>
    ensures { ReadsAs (λ x. (x.0, x.1.now)) result (get_read text.now) }
{
    let (channel, rest) = byte_field(text)?;
    let (block, rest) = half_field(rest)?;
    Ok((Request::Get { channel, block }, rest))
}

#[tactic(auto, unfolding(crate::specs::LineForms::put_read))]
fn put(alloc: Global, text: &[u8]) -> Result<(Request, &[u8]), LineError>
    ensures { ReadsAs (λ x. (x.0, x.1.now)) result (put_read text.now) }
{
    let (channel, rest) = byte_field(text)?;
    let (block, rest) = half_field(rest)?;
    let (page, rest) = page_field(alloc, rest)?;
    Ok((
        Request::Put {
            channel,
            block,
            page,
        },
        rest,
    ))
}

#[tactic(auto, unfolding(crate::specs::LineForms::getrec_read))]
fn get_record(text: &[u8]) -> Result<(Request, &[u8]), LineError>
    ensures { ReadsAs (λ x. (x.0, x.1.now)) result (getrec_read text.now) }
{
    let (channel, rest) = byte_field(text)?;
    let (block, rest) = half_field(rest)?;
    let (count, rest) = byte_field(rest)?;
    Ok((
        Request::GetRecord {
            channel,
            block,
            count,
        },
        rest,
    ))
}

#[tactic(auto, unfolding(crate::specs::LineForms::putrec_read))]
fn put_record(alloc: Global, text: &[u8]) -> Result<(Request, &[u8]), LineError>
    ensures { ReadsAs (λ x. (x.0, x.1.now)) result (putrec_read text.now) }
{
    let (channel, rest) = byte_field(text)?;
    let (block, rest) = half_field(rest)?;
    let (pages, rest) = pages_field(alloc, rest)?;
    Ok((
        Request::PutRecord {
            channel,
            block,
            pages,
        },
        rest,
    ))
}

#[tactic(auto, unfolding(crate::specs::LineForms::unlock_read))]
fn unlock(text: &[u8]) -> Result<(Request, &[u8]), LineError>
    ensures { ReadsAs (λ x. (x.0, x.1.now)) result (unlock_read text.now) }
{
    let (channel, rest) = byte_field(text)?;
    Ok((Request::Unlock { channel }, rest))
}

#[tactic(auto, unfolding(crate::specs::LineFields::field_by, crate::specs::LineForms::kill_read))]
fn kill(text: &[u8]) -> Result<(Request, &[u8]), LineError>
    ensures { ReadsAs (λ x. (x.0, x.1.now)) result (kill_read text.now) }
{
    let (text, rest) = word(text);
    let name = name(text).ok_or(LineError::Wrong)?;
    Ok((Request::Kill { name }, rest))
}

#[tactic(auto, unfolding(crate::specs::LineFields::field_by, crate::specs::LineForms::rename_read))]
fn rename(text: &[u8]) -> Result<(Request, &[u8]), LineError>
    ensures { ReadsAs (λ x. (x.0, x.1.now)) result (rename_read text.now) }
{
    let (text, rest) = word(text);
    let old = name(text).ok_or(LineError::Wrong)?;
    let (text, rest) = word(rest);
    let new = name(text).ok_or(LineError::Wrong)?;
    let (code, rest) = code_field(rest)?;
    Ok((Request::Rename { old, new, code }, rest))
}

#[tactic(auto, unfolding(crate::specs::LineForms::directory_read))]
fn directory(text: &[u8]) -> Result<(Request, &[u8]), LineError>
    ensures { ReadsAs (λ x. (x.0, x.1.now)) result (directory_read text.now) }
{
    let (owner, rest) = account_field(text)?;
    let (index, rest) = half_field(rest)?;
    Ok((Request::Directory { owner, index }, rest))
}

#[tactic(auto, unfolding(crate::specs::LineFields::field_by, crate::specs::LineForms::declare_read))]
fn declare(text: &[u8]) -> Result<(Request, &[u8]), LineError>
    ensures { ReadsAs (λ x. (x.0, x.1.now)) result (declare_read text.now) }
{
    let (text, rest) = word(text);
    let name = letters(text).ok_or(LineError::Wrong)?;
    let (most, rest) = byte_field(rest)?;
    Ok((Request::Declare { name, most }, rest))
}

#[tactic(auto, unfolding(crate::specs::LineFields::field_by, crate::specs::LineForms::send_read))]
fn send(alloc: Global, text: &[u8]) -> Result<(Request, &[u8]), LineError>
    ensures { ReadsAs (λ x. (x.0, x.1.now)) result (send_read text.now) }
{
    let (text, rest) = word(text);
    let name = letters(text).ok_or(LineError::Wrong)?;
    let (message, rest) = text_field(alloc, rest)?;
    Ok((
        Request::Send {
            name,
            text: message,
        },
        rest,
    ))
}

#[tactic(auto, unfolding(crate::specs::LineForms::sleep_read))]
fn sleep(text: &[u8]) -> Result<(Request, &[u8]), LineError>
    ensures { ReadsAs (λ x. (x.0, x.1.now)) result (sleep_read text.now) }
{
    let (seconds, rest) = half_field(text)?;
    Ok((Request::Sleep { seconds }, rest))
}

#[tactic(auto, unfolding(crate::specs::LineForms::print_read))]
fn print(alloc: Global, text: &[u8]) -> Result<(Request, &[u8]), LineError>
    ensures { ReadsAs (λ x. (x.0, x.1.now)) result (print_read text.now) }
{
    let (message, rest) = text_field(alloc, text)?;
    Ok((Request::Print { text: message }, rest))
}
