//! The text of a history.

ghost use Rattle.std.specs.Prelude.{◌≡◌, ◌<◌, [], ◌∷◌, ◌++◌, codes, OnOk, OnErr};
ghost use Rattle.std.specs.List.{flat_map};
ghost use Rattle.std.specs.Fmt.{decimal};
ghost use Rattle.deck_model.specs.Histories.{count_text, hex_sign, hex_text, hex_or_dash};
ghost use Rattle.deck_model.specs.Histories.{pages_text, account_digits, truth_text};
ghost use Rattle.deck_model.specs.Histories.{number_or_dash, letters_or_dash, printed_name};
ghost use Rattle.deck_model.specs.Histories.{kind_text, fields, request_text, reply_text};
ghost use Rattle.deck_model.specs.Histories.{entry_line, entry_lines, history_text};

use basic_values::NoMemory;
use file_names::print;
use itoa::Buffer;
use monitor_calls::{Account, Entry, FileName, OpenKind, Page, Reply, Request, Short};

/// Appends the text of a history: `HISTORY` and the number of its entries, and a line for each.
/// Each history has one text. If memory runs out, nothing is left, not even what was there before.
pub fn push_history(out: &mut Vec<u8>, history: &[Entry]) -> Result<(), NoMemory>
    ensures text { OnOk result (out.new.items ≡ out.old.items ++ history_text history.now) }
    ensures memory { OnErr result (out.new.items ≡ []) }
{
    let pushed = push_text(out, history);
    if pushed.is_err() {
        out.clear();
    }
    pushed
}

fn push_text(out: &mut Vec<u8>, history: &[Entry]) -> Result<(), NoMemory>
    ensures { OnOk result (out.new.items ≡ out.old.items ++ history_text history.now) }
{
    out.extend_from_slice(b"HISTORY ")?;
    push_count(out, history.len())?;
    out.push(b'\n')?;
    push_entries(out, history)
}

/// Appends all digits of a number.
fn push_count(out: &mut Vec<u8>, count: usize) -> Result<(), NoMemory>
    ensures { OnOk result (out.new.items ≡ out.old.items ++ count_text count) }
{
    push_digits(out, count)
}

fn push_digits(out: &mut Vec<u8>, number: usize) -> Result<(), NoMemory>
    ensures { OnOk result (out.new.items ≡ out.old.items ++ decimal number) }
{
    let mut buffer = Buffer::new();
    Ok(out.extend_from_slice(buffer.format(number).as_bytes())?)
}

fn push_entries(out: &mut Vec<u8>, entries: &[Entry]) -> Result<(), NoMemory>
    ensures { OnOk result (out.new.items ≡ out.old.items ++ entry_lines entries.now) }
{
    for entry in entries {
        push_entry(out, entry)?;
    }
    Ok(())
}

/// Appends the job, the request and the reply of a call.
fn push_entry(out: &mut Vec<u8>, entry: &Entry) -> Result<(), NoMemory>
    ensures { OnOk result (out.new.items ≡ out.old.items ++ entry_line entry.now) }
{
    let mut buffer = Buffer::new();
    out.extend_from_slice(buffer.format(entry.job).as_bytes())?;
    out.push(b' ')?;
    push_request(out, &entry.request)?;
    out.extend_from_slice(b" = ")?;
    push_reply(out, &entry.reply)?;
    Ok(out.push(b'\n')?)
}

/// Appends the text of a request in a history. If memory runs out, a part of it may have been
/// appended.
pub fn push_request(out: &mut Vec<u8>, request: &Request) -> Result<(), NoMemory>
    ensures { OnOk result (out.new.items ≡ out.old.items ++ request_text request.now) }
{
    match request {
        Request::Login { account, password } => {
            out.extend_from_slice(b"LOGIN")?;
            push_account(out, *account)?;
            push_hex_or_dash(out, password.as_bytes())
        }
        Request::Logout => Ok(out.extend_from_slice(b"LOGOUT")?),
        Request::OpenFile {
            channel,
            name,
            kind,
            update,
            code,
        } => {
            push_opened(out, *channel, name, *kind)?;
            push_truth(out, *update)?;
            push_code(out, *code)
        }
        Request::CloseFile { channel } => push_channel(out, b"CLOSE", *channel),
        Request::Get { channel, block } => push_place(out, b"GET", *channel, *block),
        Request::Put {
            channel,
            block,
            page,
        } => {
            push_place(out, b"PUT", *channel, *block)?;
            push_hex_or_dash(out, page.as_bytes())
        }
        Request::GetRecord {
            channel,
            block,
            count,
        } => {
            push_place(out, b"GETREC", *channel, *block)?;
            push_number(out, u32::from(*count))
        }
        Request::PutRecord {
            channel,
            block,
            pages,
        } => {
            push_place(out, b"PUTREC", *channel, *block)?;
            push_pages(out, pages.as_slice())
        }
        Request::Unlock { channel } => push_channel(out, b"UNLOCK", *channel),
        Request::Kill { name } => {
            out.extend_from_slice(b"KILL")?;
            push_name(out, name)
        }
        Request::Rename { old, new, code } => {
            push_renamed(out, old, new)?;
            push_code(out, *code)
        }
        Request::Directory { owner, index } => {
            out.extend_from_slice(b"DIRECTORY")?;
            push_account(out, *owner)?;
            push_number(out, u32::from(*index))
        }
        Request::Declare { name, most } => {
            out.extend_from_slice(b"DECLARE")?;
            push_letters(out, name)?;
            push_number(out, u32::from(*most))
        }
        Request::Remove => Ok(out.extend_from_slice(b"REMOVE")?),
        Request::Send { name, text } => {
            out.extend_from_slice(b"SEND")?;
            push_letters(out, name)?;
            push_hex_or_dash(out, text.as_bytes())
        }
        Request::Receive => Ok(out.extend_from_slice(b"RECEIVE")?),
        Request::Sleep { seconds } => {
            out.extend_from_slice(b"SLEEP")?;
            push_number(out, u32::from(*seconds))
        }
        Request::Tick => Ok(out.extend_from_slice(b"TICK")?),
        Request::Assign => Ok(out.extend_from_slice(b"ASSIGN")?),
        Request::Deassign => Ok(out.extend_from_slice(b"DEASSIGN")?),
        Request::OpenPrinter => Ok(out.extend_from_slice(b"LPOPEN")?),
        Request::Print { text } => {
            out.extend_from_slice(b"LPPRINT")?;
            push_hex_or_dash(out, text.as_bytes())
        }
        Request::ClosePrinter => Ok(out.extend_from_slice(b"LPCLOSE")?),
        Request::Status => Ok(out.extend_from_slice(b"STATUS")?),
    }
}

/// Appends the text of a reply in a history. If memory runs out, a part of it may have been
/// appended.
pub fn push_reply(out: &mut Vec<u8>, reply: &Reply) -> Result<(), NoMemory>
    ensures { OnOk result (out.new.items ≡ out.old.items ++ reply_text reply.now) }
{
    match reply {
        Reply::Done => Ok(out.extend_from_slice(b"DONE")?),
        Reply::Opened {
            blocks,
            read,
            write,
        } => {
            out.extend_from_slice(b"OPENED")?;
            push_number(out, u32::from(*blocks))?;
            push_truth(out, *read)?;
            push_truth(out, *write)
        }
        Reply::Block(page) => {
            out.extend_from_slice(b"BLOCK")?;
            push_hex_or_dash(out, page.as_bytes())
        }
        Reply::Record(pages) => {
            out.extend_from_slice(b"RECORD")?;
            push_pages(out, pages.as_slice())
        }
        Reply::Name { name, code, blocks } => {
            out.extend_from_slice(b"NAME")?;
            push_name(out, name)?;
            push_number(out, u32::from(*code))?;
            push_blocks(out, *blocks)
        }
        Reply::Message { job, account, text } => {
            out.extend_from_slice(b"MESSAGE")?;
            push_number(out, *job)?;
            push_account(out, *account)?;
            push_hex_or_dash(out, text.as_bytes())
        }
        Reply::State {
            job,
            account,
            calls,
        } => {
            out.extend_from_slice(b"STATE")?;
            push_number(out, *job)?;
            push_account(out, *account)?;
            push_number(out, u32::from(*calls))
        }
        Reply::Failed(fault) => {
            out.extend_from_slice(b"FAILED")?;
            push_number(out, u32::from(fault.number()))
        }
        Reply::Expired => Ok(out.extend_from_slice(b"EXPIRED")?),
    }
}

/// Appends a word, and a channel.
fn push_channel(out: &mut Vec<u8>, word: &[u8], channel: u8) -> Result<(), NoMemory>
    ensures { OnOk result
        (out.new.items ≡ out.old.items ++ word.now ++ fields (decimal channel ∷ [])) }
{
    out.extend_from_slice(word)?;
    push_number(out, u32::from(channel))
}

/// Appends a word, a channel and a block.
fn push_place(out: &mut Vec<u8>, word: &[u8], channel: u8, block: u16) -> Result<(), NoMemory>
    ensures { OnOk result (out.new.items
        ≡ out.old.items ++ word.now ++ fields (decimal channel ∷ decimal block ∷ [])) }
{
    push_channel(out, word, channel)?;
    push_number(out, u32::from(block))
}

/// Appends an OPEN: its channel, its file, and how it is opened.
fn push_opened(
    out: &mut Vec<u8>,
    channel: u8,
    name: &FileName,
    kind: OpenKind,
) -> Result<(), NoMemory>
    ensures { OnOk result (out.new.items ≡ out.old.items ++ codes "OPEN"
        ++ fields (decimal channel ∷ printed_name name.now ∷ kind_text kind ∷ [])) }
{
    push_channel(out, b"OPEN", channel)?;
    push_name(out, name)?;
    push_field(out, kind_text(kind))
}

fn push_renamed(out: &mut Vec<u8>, old: &FileName, new: &FileName) -> Result<(), NoMemory>
    ensures { OnOk result (out.new.items ≡ out.old.items ++ codes "RENAME"
        ++ fields (printed_name old.now ∷ printed_name new.now ∷ [])) }
{
    out.extend_from_slice(b"RENAME")?;
    push_name(out, old)?;
    push_name(out, new)
}

/// Appends a field, after a space.
fn push_field(out: &mut Vec<u8>, field: &[u8]) -> Result<(), NoMemory>
    ensures { OnOk result (out.new.items ≡ out.old.items ++ codes " " ++ field.now) }
{
    out.push(b' ')?;
    Ok(out.extend_from_slice(field)?)
}

fn push_number(out: &mut Vec<u8>, number: u32) -> Result<(), NoMemory>
    ensures { OnOk result (out.new.items ≡ out.old.items ++ codes " " ++ decimal number) }
{
    let mut buffer = Buffer::new();
    push_field(out, buffer.format(number).as_bytes())
}

/// Appends a protection code, or a dash if there is none.
fn push_code(out: &mut Vec<u8>, code: Option<u8>) -> Result<(), NoMemory>
    ensures { OnOk result (out.new.items ≡ out.old.items ++ codes " " ++ number_or_dash code) }
{
    match code {
        Some(code) => push_number(out, u32::from(code)),
        None => push_field(out, b"-"),
    }
}

/// Appends a number of blocks, or a dash if it is not known.
fn push_blocks(out: &mut Vec<u8>, blocks: Option<u16>) -> Result<(), NoMemory>
    ensures { OnOk result (out.new.items ≡ out.old.items ++ codes " " ++ number_or_dash blocks) }
{
    match blocks {
        Some(blocks) => push_number(out, u32::from(blocks)),
        None => push_field(out, b"-"),
    }
}

fn push_truth(out: &mut Vec<u8>, truth: bool) -> Result<(), NoMemory>
    ensures { OnOk result (out.new.items ≡ out.old.items ++ codes " " ++ truth_text truth) }
{
    push_field(out, if truth { b"1" } else { b"0" })
}

#[tactic(auto, unfolding(deck_model::specs::Histories::printed_name))]
fn push_name(out: &mut Vec<u8>, name: &FileName) -> Result<(), NoMemory>
    ensures { OnOk result (out.new.items ≡ out.old.items ++ codes " " ++ printed_name name.now) }
{
    push_field(out, print(name).as_slice())
}

/// Appends the letters of a short name, or a dash if it has none.
fn push_letters(out: &mut Vec<u8>, name: &Short) -> Result<(), NoMemory>
    ensures { OnOk result (out.new.items ≡ out.old.items ++ codes " " ++ letters_or_dash name.now) }
{
    match name.as_bytes() {
        [] => push_field(out, b"-"),
        letters => push_field(out, letters),
    }
}

fn kind_text(kind: OpenKind) -> &'static [u8]
    ensures { result.now ≡ kind_text kind }
{
    match kind {
        OpenKind::Input => b"INPUT",
        OpenKind::Output => b"OUTPUT",
        OpenKind::Either => b"EITHER",
        OpenKind::Fresh => b"FRESH",
    }
}

fn push_account(out: &mut Vec<u8>, account: Account) -> Result<(), NoMemory>
    ensures { OnOk result (out.new.items ≡ out.old.items ++ codes " " ++ account_digits account) }
{
    let mut buffer = Buffer::new();
    push_number(out, u32::from(account.project))?;
    out.push(b',')?;
    Ok(out.extend_from_slice(buffer.format(account.programmer).as_bytes())?)
}

/// Appends each byte as two hexadecimal digits, or a dash if there are none.
fn push_hex_or_dash(out: &mut Vec<u8>, bytes: &[u8]) -> Result<(), NoMemory>
    ensures { OnOk result (out.new.items ≡ out.old.items ++ codes " " ++ hex_or_dash bytes.now) }
{
    out.push(b' ')?;
    match bytes {
        [] => Ok(out.push(b'-')?),
        [..] => push_hex(out, bytes),
    }
}

/// Appends the blocks of a record without spaces, or a dash if there are none.
fn push_pages(out: &mut Vec<u8>, pages: &[Page]) -> Result<(), NoMemory>
    ensures { OnOk result (out.new.items ≡ out.old.items ++ codes " " ++ pages_text pages.now) }
{
    out.push(b' ')?;
    match pages {
        [] => Ok(out.push(b'-')?),
        [..] => push_run(out, pages),
    }
}

fn push_run(out: &mut Vec<u8>, pages: &[Page]) -> Result<(), NoMemory>
    ensures { OnOk result (out.new.items ≡ out.old.items ++ flat_map hex_text pages.now) }
{
    for page in pages {
        push_hex(out, page.as_bytes())?;
    }
    Ok(())
}

/// Writes the bytes as hexadecimal digits, two for each, in small letters.
pub fn push_hex(out: &mut Vec<u8>, bytes: &[u8]) -> Result<(), NoMemory>
    ensures { OnOk result (out.new.items ≡ out.old.items ++ hex_text bytes.now) }
{
    for byte in bytes {
        out.push(hex_sign(*byte / 16))?;
        out.push(hex_sign(*byte % 16))?;
    }
    Ok(())
}

/// Returns the hexadecimal digit of a number below 16, a small letter from 10 on.
fn hex_sign(number: u8) -> u8
    requires { number < 16 }
    ensures { result ≡ hex_sign number }
{
    if number < 10 {
        b'0' + number
    } else {
        b'a' - 10 + number
    }
}
