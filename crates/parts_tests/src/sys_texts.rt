//! The strings of SYS.

use crate::expects::expect_none;
use crate::names::account;
use basic_values::{Text, Trouble};
use monitor_calls::{Reply, Request};
use std::alloc::Global;
use std::test::Fail;
use sys_calls::{SysCall, decode, encode};

/// What a string asks for.
#[derive(Clone, Copy)]
enum Asked {
    ReadCommon,
    WriteCommon(&'static [u8]),
    ErrorText(u8),
    /// The receiver, and how many messages it takes.
    Declare(&'static [u8], u8),
    Remove,
    /// The receiver, and the message.
    Send(&'static [u8], &'static [u8]),
    Receive,
    Status,
    Refused(u8),
}

fn is_request(request: &Request, want: Asked) -> bool {
    match (request, want) {
        (Request::Declare { name, most }, Asked::Declare(wanted, count)) => {
            name.as_bytes() == wanted && *most == count
        }
        (Request::Send { name, text }, Asked::Send(wanted, message)) => {
            name.as_bytes() == wanted && text.as_bytes() == message
        }
        (Request::Remove, Asked::Remove)
        | (Request::Receive, Asked::Receive)
        | (Request::Status, Asked::Status) => true,
        _ => false,
    }
}

fn is_asked(call: &SysCall, want: Asked) -> bool {
    match (call, want) {
        (SysCall::ReadCommon, Asked::ReadCommon) => true,
        (SysCall::WriteCommon(text), Asked::WriteCommon(common)) => text.as_bytes() == common,
        (SysCall::ErrorText(number), Asked::ErrorText(wanted)) => *number == wanted,
        (SysCall::Ask(request), want) => is_request(request, want),
        _ => false,
    }
}

fn asks(alloc: Global, text: &[u8], want: Asked) -> bool {
    match decode(alloc, text) {
        Ok(call) => is_asked(&call, want),
        Err(Trouble::Refused(fault)) => matches!(want, Asked::Refused(it) if it == fault.number()),
        Err(Trouble::NoMemory) => false,
    }
}

fn first_wrong_call(alloc: Global, rows: &[(&[u8], Asked)]) -> Option<usize> {
    for (place, (text, want)) in rows.iter().enumerate() {
        if !asks(alloc, text, *want) {
            return Some(place);
        }
    }
    None
}

static ASKED: [(&[u8], Asked); 12] = [
    (b"\x07", Asked::ReadCommon),
    (b"\x08HI", Asked::WriteCommon(b"HI")),
    (b"\x08", Asked::WriteCommon(b"")),
    (b"\x06\x09\x13", Asked::ErrorText(19)),
    (b"\x06\x09\x00", Asked::ErrorText(0)),
    (b"\x06\x16\x01Ab1   \x02", Asked::Declare(b"AB1", 2)),
    (b"\x06\x16\x01orders\x20", Asked::Declare(b"ORDERS", 32)),
    (b"\x06\x16\x00", Asked::Remove),
    (
        b"\x06\x16\xfforders Hello",
        Asked::Send(b"ORDERS", b" Hello"),
    ),
    (b"\x06\x16\xff7     ", Asked::Send(b"7", b"")),
    (b"\x06\x16\x02", Asked::Receive),
    (b"\x06\x80", Asked::Status),
];

#[test]
fn each_row_of_the_table_asks_its_call(rt: HostRuntime) -> Result<(), Fail> {
    expect_none(rt.alloc(), first_wrong_call(rt.alloc(), &ASKED))
}

static REFUSED: [(&[u8], Asked); 20] = [
    (b"", Asked::Refused(18)),
    (b"c", Asked::Refused(18)),
    (b"\x06", Asked::Refused(18)),
    (b"\x06\x05", Asked::Refused(18)),
    (b"\x06\x16", Asked::Refused(18)),
    (b"\x06\x16\x03", Asked::Refused(18)),
    (b"\x07\x00", Asked::Refused(18)),
    (b"\x06\x80 ", Asked::Refused(18)),
    (b"\x06\x09", Asked::Refused(18)),
    (b"\x06\x09\x13\x13", Asked::Refused(18)),
    (b"\x06\x16\x00 ", Asked::Refused(18)),
    (b"\x06\x16\x02 ", Asked::Refused(18)),
    (b"\x06\x16\x01ORDERS", Asked::Refused(18)),
    (b"\x06\x16\x01ORDERS\x00", Asked::Refused(18)),
    (b"\x06\x16\x01ORDERS\x21", Asked::Refused(18)),
    (b"\x06\x16\x01ORDERS\x02 ", Asked::Refused(18)),
    (b"\x06\x16\x01A B   \x02", Asked::Refused(18)),
    (b"\x06\x16\x01      \x02", Asked::Refused(18)),
    (b"\x06\x16\x01A\x00\x00\x00\x00\x00\x02", Asked::Refused(18)),
    (b"\x06\x16\xffABC", Asked::Refused(18)),
];

#[test]
fn any_other_text_is_18(rt: HostRuntime) -> Result<(), Fail> {
    expect_none(rt.alloc(), first_wrong_call(rt.alloc(), &REFUSED))
}

/// Returns some bytes, and then the letter x, this many times.
fn with_letters(alloc: Global, front: &[u8], count: usize) -> Result<Vec<u8>, Fail> {
    let letters = vec![in alloc; b'x'; count]?;
    let mut text = Vec::from_slice(alloc, front)?;
    text.extend_from_slice(&letters)?;
    Ok(text)
}

/// Returns how many bytes a string passes on; none if it fails.
fn handed_over(alloc: Global, text: &[u8]) -> Option<usize> {
    match decode(alloc, text) {
        Ok(SysCall::WriteCommon(common)) => Some(common.as_bytes().len()),
        Ok(SysCall::Ask(Request::Send { text, .. })) => Some(text.as_bytes().len()),
        Ok(_) => None,
        Err(_) => None,
    }
}

/// The first bytes, how many letters come after them, and how many are passed on.
static LONG: [(&[u8], usize, Option<usize>); 4] = [
    (b"\x08", 127, Some(127)),
    (b"\x08", 128, None),
    (b"\x06\x16\xffORDERS", 512, Some(512)),
    (b"\x06\x16\xffORDERS", 513, None),
];

fn first_wrong_length(
    alloc: Global,
    rows: &[(&[u8], usize, Option<usize>)],
) -> Result<Option<usize>, Fail> {
    for (place, (front, count, want)) in rows.iter().enumerate() {
        let text = with_letters(alloc, front, *count)?;
        if handed_over(alloc, &text) != *want {
            return Ok(Some(place));
        }
    }
    Ok(None)
}

#[test]
fn a_common_has_127_bytes_and_a_message_512(rt: HostRuntime) -> Result<(), Fail> {
    expect_none(rt.alloc(), first_wrong_length(rt.alloc(), &LONG)?)
}

/// The replies of the monitor, to a job of [100,5].
#[derive(Clone, Copy)]
enum Replied {
    Done,
    /// The job that sent it, and the message.
    Message(u32, &'static [u8]),
    /// The job, and its calls.
    State(u32, u16),
}

fn message_text(alloc: Global, job: u32, bytes: &[u8]) -> Result<Text, Fail> {
    if job > 62 || bytes.len() > 512 {
        return Err("out of range".into());
    }
    let text = Text::of(alloc, bytes)?;
    let account = account(100, 5);
    let reply = Reply::Message { job, account, text };
    Ok(encode(alloc, &reply)?)
}

fn state_text(alloc: Global, job: u32, calls: u16) -> Result<Text, Fail> {
    if job > 62 {
        return Err("out of range".into());
    }
    let account = account(100, 5);
    let reply = Reply::State {
        job,
        account,
        calls,
    };
    Ok(encode(alloc, &reply)?)
}

fn given(alloc: Global, replied: Replied) -> Result<Text, Fail> {
    match replied {
        Replied::Done => Ok(encode(alloc, &Reply::Done)?),
        Replied::Message(job, bytes) => message_text(alloc, job, bytes),
        Replied::State(job, calls) => state_text(alloc, job, calls),
    }
}

static GIVEN: [(Replied, &[u8]); 6] = [
    (Replied::Done, b""),
    (Replied::Message(0, b"Hello"), b"\x01\x64\x05Hello"),
    (Replied::Message(62, b""), b"\x3f\x64\x05"),
    (Replied::State(0, 1), b"\x01\x64\x05\x00\x01"),
    (Replied::State(4, 300), b"\x05\x64\x05\x01\x2c"),
    (Replied::State(4, 16384), b"\x05\x64\x05\x40\x00"),
];

fn is_given(alloc: Global, replied: Replied, want: &[u8]) -> Result<bool, Fail> {
    let text = given(alloc, replied)?;
    Ok(text.as_bytes() == want)
}

fn first_wrong_text(alloc: Global, rows: &[(Replied, &[u8])]) -> Result<Option<usize>, Fail> {
    for (place, (replied, want)) in rows.iter().enumerate() {
        if !is_given(alloc, *replied, want)? {
            return Ok(Some(place));
        }
    }
    Ok(None)
}

#[test]
fn a_reply_is_told_by_its_row(rt: HostRuntime) -> Result<(), Fail> {
    expect_none(rt.alloc(), first_wrong_text(rt.alloc(), &GIVEN)?)
}
