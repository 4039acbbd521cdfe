//! How a session is tested: its keys, the replies of its port, what it shows and its requests.

use crate::told::{Told, joined};
use basic_values::{Fault, KeyLine, Text};
use command_level::serve;
use monitor_calls::{Account, Event, FileName, OpenKind, Page, Reply, Request, ScriptPort, Short};
use std::alloc::Global;
use std::test::Fail;

pub(crate) const HELLO: &str = "HELLO 100,5;DEMO";

pub(crate) const READY: &str = "Ready\n";

pub(crate) const ILLEGAL_COMMAND: &str = "?Illegal command\nReady\n";

pub(crate) const ILLEGAL_NAME: &str = "?Illegal file name\nReady\n";

pub(crate) const IMMEDIATE: &str = "?Illegal in immediate mode\nReady\n";

pub(crate) const ILLEGAL_NUMBER: &str = "?Illegal line number\nReady\n";

pub(crate) const FLOATING_NAME: &str = "?Floating variable\nReady\n";

pub(crate) const FLOATING_LITERAL: &str = "?Floating literal\nReady\n";

pub(crate) const TOO_WIDE: &str = "?Number too wide\nReady\n";

pub(crate) const OPEN_STRING: &str = "?Open string\nReady\n";

pub(crate) const STRAY_BYTE: &str = "?Stray byte\nReady\n";

pub(crate) const SYNTAX: &str = "?Syntax error\nReady\n";

pub(crate) const TOO_DEEP: &str = "?Expression too deep\nReady\n";

/// A line, and what it shows.
pub(crate) type Row = (&'static str, &'static str);

/// Lines after the login with what they show, the answers after that to the login, and the requests
/// between the login and the logout.
pub(crate) type Talk = (&'static [Row], &'static [Answer], &'static str);

/// A line at which the job's calls are used up, the answers, and the requests after the login.
pub(crate) type Expiring = (&'static str, &'static [Answer], &'static str);

/// A reply of the script, in few words.
#[derive(Clone, Copy)]
pub(crate) enum Answer {
    Done,
    Expired,
    Failed(u8),
    /// A file of this many blocks is open.
    Opened(u16),
    /// A block that begins with this text, with CR and LF for each LF.
    Block(&'static str),
    /// A block of comments: the number of the first line, and of the last.
    Comments(u16, u16),
    /// A file of [100,5] with the extension BAS: its code, and its blocks if they are given.
    Named(&'static str, u8, Option<u16>),
    /// A message of this text, from the first job.
    Message(&'static str),
    /// The first job with this many calls.
    State(u16),
}

// WHAT A PORT REPLIES

fn reply_of(alloc: Global, answer: &Answer) -> Result<Reply, Fail> {
    match answer {
        Answer::Done => Ok(Reply::Done),
        Answer::Expired => Ok(Reply::Expired),
        Answer::Failed(number) => Ok(Reply::Failed(Fault::new(*number))),
        Answer::Opened(blocks) => Ok(opened(*blocks)),
        Answer::Block(text) => block(alloc, text),
        Answer::Comments(first, last) => block(alloc, comments(alloc, *first, *last).whole()?),
        Answer::Named(stem, code, blocks) => name(stem.as_bytes(), *code, *blocks),
        Answer::Message(text) => message(alloc, text),
        Answer::State(calls) => Ok(state(*calls)),
    }
}

const USER: Account = Account {
    project: 100,
    programmer: 5,
};

fn message(alloc: Global, text: &str) -> Result<Reply, Fail> {
    match Text::of(alloc, text.as_bytes()) {
        Ok(text) => Ok(Reply::Message {
            job: 0,
            account: USER,
            text,
        }),
        Err(_) => Err(Fail::from("a message is too long")),
    }
}

fn state(calls: u16) -> Reply {
    Reply::State {
        job: 0,
        account: USER,
        calls,
    }
}

fn opened(blocks: u16) -> Reply {
    Reply::Opened {
        blocks,
        read: true,
        write: true,
    }
}

/// Returns a block that begins with this text.
fn block(alloc: Global, text: &str) -> Result<Reply, Fail> {
    let bytes = block_bytes(alloc, text)?;
    let mut page = Page::new(alloc)?;
    if bytes.len() == 512 {
        page.fill(bytes.as_slice());
    }
    Ok(Reply::Block(page))
}

/// Returns the text with CR and LF for each LF, and zeros after it.
fn block_bytes(alloc: Global, text: &str) -> Result<Vec<u8>, Fail> {
    let mut bytes = Vec::new(alloc);
    for byte in text.as_bytes() {
        push_byte(&mut bytes, *byte)?;
    }
    bytes.resize(512, 0)?;
    Ok(bytes)
}

fn push_byte(bytes: &mut Vec<u8>, byte: u8) -> Result<(), Fail> {
    if byte == b'\n' {
        bytes.push(b'\r')?;
    }
    Ok(bytes.push(byte)?)
}

fn comments(alloc: Global, first: u16, last: u16) -> Told {
    let mut text = Told::new(alloc);
    for number in first..=last {
        text.count("", number);
        text.put("!\n");
    }
    text
}

fn name(stem: &[u8], code: u8, blocks: Option<u16>) -> Result<Reply, Fail> {
    let name = FileName {
        owner: USER,
        stem: Short::of(stem).ok_or("no stem")?,
        extension: Short::of(b"BAS").ok_or("no extension")?,
    };
    Ok(Reply::Name { name, code, blocks })
}

fn push_reply(alloc: Global, replies: &mut Vec<Reply>, answer: &Answer) -> Result<(), Fail> {
    Ok(replies.push(reply_of(alloc, answer)?)?)
}

/// Returns a port that types these key lines and gives these replies, and before them one to a
/// login if there is one.
fn port_of(
    alloc: Global,
    keys: Vec<KeyLine>,
    has_login: bool,
    answers: &[Answer],
) -> Result<ScriptPort, Fail> {
    let mut replies = Vec::new(alloc);
    if has_login {
        replies.push(Reply::Done)?;
    }
    for answer in answers {
        push_reply(alloc, &mut replies, answer)?;
    }
    Ok(ScriptPort::typed(alloc, keys, replies))
}

// THE REQUESTS

fn put_account(told: &mut Told, word: &str, account: &Account) {
    told.count(word, u16::from(account.project));
    told.count(",", u16::from(account.programmer))
}

/// Writes a reply as text.
fn put_reply(told: &mut Told, reply: &Reply) {
    match reply {
        Reply::Done => told.put("Done"),
        Reply::Failed(fault) => told.count("Failed ", u16::from(fault.number())),
        Reply::Expired => told.put("Expired"),
        Reply::Opened { blocks, .. } => told.count("Opened ", *blocks),
        Reply::Block(_) => told.put("Block"),
        Reply::Name { name, .. } => told.file("Name ", name, None),
        Reply::Message { .. } => told.put("Message"),
        Reply::State { .. } => told.put("State"),
        _ => told.reply(reply),
    }
}

/// Writes a request as text.
fn put_request(told: &mut Told, request: &Request) {
    match request {
        Request::Login { account, password } => {
            put_account(told, "Login ", account);
            told.put(";");
            told.put_bytes(password.as_bytes())
        }
        Request::OpenFile {
            name,
            kind,
            code,
            ..
        } => told.file(kind_told(*kind), name, *code),
        Request::CloseFile { channel } => told.count("Close ", u16::from(*channel)),
        Request::Get { block, .. } => told.count("Get ", *block),
        Request::Put { block, .. } => told.count("Put ", *block),
        Request::GetRecord { block, count, .. } => {
            told.count("GetRecord ", *block);
            told.count(" ", u16::from(*count))
        }
        Request::Unlock { channel } => told.count("Unlock ", u16::from(*channel)),
        Request::Sleep { seconds } => told.count("Sleep ", *seconds),
        Request::Rename { new, code, .. } => told.file("Rename to ", new, *code),
        Request::Kill { name } => told.file("Kill ", name, None),
        Request::Directory { owner, index } => {
            put_account(told, "Directory ", owner);
            told.count(" ", *index)
        }
        _ => put_message_request(told, request),
    }
}

/// Writes a request on messages or on the printer as text.
fn put_message_request(told: &mut Told, request: &Request) {
    match request {
        Request::Declare { name, most } => {
            told.put("Declare ");
            told.put_bytes(name.as_bytes());
            told.count(" ", u16::from(*most))
        }
        Request::Send { name, text } => {
            told.put("Send ");
            told.put_bytes(name.as_bytes());
            told.put(" ");
            told.put_bytes(text.as_bytes())
        }
        Request::Print { text } => {
            told.put("Print ");
            told.put_bytes(text.as_bytes())
        }
        _ => put_word(told, request),
    }
}

/// Writes a request that is a single word, and any other one as it is in a history.
fn put_word(told: &mut Told, request: &Request) {
    match request {
        Request::Logout => told.put("Logout"),
        Request::Tick => told.put("Tick"),
        Request::Remove => told.put("Remove"),
        Request::Receive => told.put("Receive"),
        Request::Status => told.put("Status"),
        Request::Assign => told.put("Assign"),
        Request::Deassign => told.put("Deassign"),
        Request::OpenPrinter => told.put("OpenPrinter"),
        Request::ClosePrinter => told.put("ClosePrinter"),
        _ => told.request(request),
    }
}

fn kind_told(kind: OpenKind) -> &'static str {
    match kind {
        OpenKind::Input => "Input ",
        OpenKind::Output => "Output ",
        OpenKind::Either => "Either ",
        OpenKind::Fresh => "Fresh ",
    }
}

/// Returns the log as text, with a line for each call.
fn log_told(alloc: Global, log: &[Event]) -> Told {
    let mut told = Told::new(alloc);
    for event in log {
        put_event(&mut told, event);
    }
    told
}

fn put_event(told: &mut Told, event: &Event) {
    if let Event::Asked { request, reply } = event {
        put_request(told, request);
        told.put(" ");
        put_reply(told, reply);
        told.put("\n");
    }
}

// SESSIONS

/// Returns whether these bytes are the text, with CR and LF for each LF.
fn is_shown(bytes: &[u8], text: &str) -> bool {
    let mut shown = bytes.iter();
    for byte in text.as_bytes() {
        if *byte == b'\n' && shown.next() != Some(&b'\r') {
            return false;
        }
        if shown.next() != Some(byte) {
            return false;
        }
    }
    shown.next().is_none()
}

/// Fails with what is shown, unless it is this.
fn expect_shown(alloc: Global, bytes: &[u8], wanted: &str) -> Result<(), Fail> {
    if is_shown(bytes, wanted) {
        return Ok(());
    }
    Err(Fail::new(String::from_utf8(Vec::from_slice(alloc, bytes)?)?))
}

/// Fails with what the session over this port shows, unless it is this.
fn expect_screen(alloc: Global, port: &mut ScriptPort, wanted: &str) -> Result<(), Fail> {
    let screen = serve(alloc, port)?;
    expect_shown(alloc, screen.bytes(), wanted)
}

/// Fails with what was shown or requested, unless the session over this port shows this and makes
/// these requests.
fn expect_session(
    alloc: Global,
    port: &mut ScriptPort,
    screen: &str,
    log: &str,
) -> Result<(), Fail> {
    expect_screen(alloc, port, screen)?;
    log_told(alloc, port.log()).expect(log)
}

fn push_key(alloc: Global, keys: &mut Vec<KeyLine>, line: &str) -> Result<(), Fail> {
    if line.len() > 255 {
        return Err(Fail::from("a key line is too long"));
    }
    Ok(keys.push(KeyLine::of(alloc, line.as_bytes())?)?)
}

fn key_lines(alloc: Global, lines: &[&str]) -> Result<Vec<KeyLine>, Fail> {
    let mut keys = Vec::new(alloc);
    for line in lines {
        push_key(alloc, &mut keys, line)?;
    }
    Ok(keys)
}

/// Does the same over a port with these answers.
pub(crate) fn expect_talk(
    alloc: Global,
    keys: &[&str],
    answers: &[Answer],
    screen: &str,
    log: &str,
) -> Result<(), Fail> {
    let keys = key_lines(alloc, keys)?;
    let mut port = port_of(alloc, keys, false, answers)?;
    expect_session(alloc, &mut port, screen, log)
}

/// Fails unless a user's line is the last of a job that expires at one of these answers.
fn expect_expiring(alloc: Global, row: &Expiring) -> Result<(), Fail> {
    let (line, answers, asked) = row;
    let screen = joined(alloc, &[HELLO, "\nReady\n", line, "\n?Job expired\n"])?;
    let log = joined(alloc, &["Login 100,5;DEMO Done\n", asked])?;
    expect_talk(
        alloc,
        &[HELLO, line],
        answers,
        screen.as_str(),
        log.as_str(),
    )
}

/// Does the same for each of these.
pub(crate) fn expect_all_expiring(alloc: Global, rows: &[Expiring]) -> Result<(), Fail> {
    for row in rows {
        expect_expiring(alloc, row)?;
    }
    Ok(())
}

/// Does the same for a line before the login, which makes no request.
pub(crate) fn expect_of_visitor(alloc: Global, line: &str, shown: &str) -> Result<(), Fail> {
    let screen = joined(alloc, &[line, "\n", shown])?;
    expect_talk(alloc, &[line], &[], screen.as_str(), "")
}

/// Does the same for each of these lines by itself.
pub(crate) fn expect_of_visitors(alloc: Global, rows: &[Row]) -> Result<(), Fail> {
    for (line, shown) in rows {
        expect_of_visitor(alloc, line, shown)?;
    }
    Ok(())
}

/// The requests of the login and the logout.
pub(crate) const NOTHING_BETWEEN: &str = "Login 100,5;DEMO Done\nLogout Done\n";

/// Does the same for a line after the login, which makes no request.
pub(crate) fn expect_of_user(alloc: Global, line: &str, shown: &str) -> Result<(), Fail> {
    expect_of_lines(alloc, &[(line, shown)])
}

/// Does the same for each of these lines by itself.
pub(crate) fn expect_of_users(alloc: Global, rows: &[Row]) -> Result<(), Fail> {
    for (line, shown) in rows {
        expect_of_user(alloc, line, shown)?;
    }
    Ok(())
}

/// Does the same, if all of them show the same text.
pub(crate) fn expect_of_each(alloc: Global, lines: &[&str], shown: &str) -> Result<(), Fail> {
    for line in lines {
        expect_of_user(alloc, line, shown)?;
    }
    Ok(())
}

/// Does the same, if LF and Ready follow what each of them shows.
pub(crate) fn expect_of_ready(alloc: Global, rows: &[Row]) -> Result<(), Fail> {
    for (line, text) in rows {
        let shown = joined(alloc, &[text, "\nReady\n"])?;
        expect_of_user(alloc, line, shown.as_str())?;
    }
    Ok(())
}

/// Does the same for lines after the login one after another, which make no request.
pub(crate) fn expect_of_lines(alloc: Global, lines: &[(&str, &str)]) -> Result<(), Fail> {
    expect_of_files(alloc, lines, &[Answer::Done], "")
}

/// Does the same, if the lines make these requests, and the last answer is that to the logout.
pub(crate) fn expect_of_files(
    alloc: Global,
    lines: &[(&str, &str)],
    answers: &[Answer],
    asked: &str,
) -> Result<(), Fail> {
    let keys = user_keys(alloc, lines)?;
    let mut port = port_of(alloc, keys, true, answers)?;
    let screen = user_screen(alloc, lines);
    let log = user_log(alloc, asked);
    expect_session(alloc, &mut port, screen.text(), log.text())
}

/// Does the same for each of these.
pub(crate) fn expect_talks(alloc: Global, talks: &[Talk]) -> Result<(), Fail> {
    for (lines, answers, asked) in talks {
        expect_of_files(alloc, lines, answers, asked)?;
    }
    Ok(())
}

/// Returns HELLO, and the lines after it.
fn user_keys(alloc: Global, lines: &[(&str, &str)]) -> Result<Vec<KeyLine>, Fail> {
    let mut keys = Vec::new(alloc);
    push_key(alloc, &mut keys, HELLO)?;
    for (line, _) in lines {
        push_key(alloc, &mut keys, line)?;
    }
    Ok(keys)
}

/// Returns the screen of HELLO and of the lines after it, to the end of the session.
fn user_screen(alloc: Global, lines: &[(&str, &str)]) -> Told {
    let mut screen = Told::new(alloc);
    screen.put(HELLO);
    screen.put("\nReady\n");
    for (line, shown) in lines {
        screen.put(line);
        screen.put("\n");
        screen.put(shown);
    }
    screen.put("Bye\n");
    screen
}

/// Returns the requests, between a login and a logout.
fn user_log(alloc: Global, asked: &str) -> Told {
    let mut log = Told::new(alloc);
    log.put("Login 100,5;DEMO Done\n");
    log.put(asked);
    log.put("Logout Done\n");
    log
}
