//! Shows the catalog of an account on a screen.

ghost use Rattle.std.specs.Prelude.{ℕ, ◌≡◌, ◌≤◌, ◌++◌, replicate, IfOk, OnOk};
ghost use Rattle.basic_values.specs.Texts.{space};
ghost use Rattle.basic_values.specs.declared.limits.TheConstants.{MOST_FILES};
ghost use Rattle.monitor_calls.specs.declared.calls.Request.TheVariants as request;
ghost use Rattle.job_model.specs.Asking.{counts_as};
ghost use Rattle.job_model.specs.Follow.{Follows, answered_by};
ghost use Rattle.job_model.specs.Play as play;
ghost use Rattle.monitor_calls.specs.declared.names.Account.{Account as TheAccount};
ghost use Rattle.program_files.specs.Taken.{IsTold};
ghost use Rattle.program_files.specs.Catalogs.{shown_by, at_left, at_right, blocks_text, file_line};
ghost use Rattle.program_files.specs.Catalogs.{catalog_from, shows_file};

use basic_values::limits::MOST_FILES;
use basic_values::{NoMemory, Stop};
use itoa::Buffer;
use job_model::is_error;
use monitor_calls::{Account, FileName, Port, Reply, Request};
use std::alloc::Global;
use terminal_line::Screen;

/// The most places of a directory that are looked at: as many as there can be files.
const MOST_PLACES: u16 = MOST_FILES as u16;

/// The columns of a stem, and those of a number of blocks.
const WIDE: usize = 6;

/// The columns of an extension.
const NARROW: usize = 3;

/// Writes a line for each file of an account, in the order of the monitor's directory.
pub fn show_catalog<P: Port>(
    alloc: Global,
    port: &mut P,
    owner: Account,
    screen: &mut Screen,
) -> Result<(), Stop>
    ensures { (clock : play.Clock) → Follows P.who P.log port.old port.new clock clock
        (catalog_from owner 0 MOST_FILES screen.old) (answered_by result screen.new) }
{
    for index in 0..MOST_PLACES {
        if !show_file(alloc, port, owner, index, screen)? {
            return Ok(());
        }
    }
    Ok(())
}

/// Writes the line of the file at an index, and returns whether there is one.
fn show_file<P: Port>(
    alloc: Global,
    port: &mut P,
    owner: Account,
    index: u16,
    screen: &mut Screen,
) -> Result<bool, Stop>
    ensures { (clock : play.Clock) → Follows P.who P.log port.old port.new clock clock
        (shows_file owner index screen.old) (answered_by result screen.new) }
{
    let reply = port.ask(alloc, Request::Directory { owner, index })?;
    show_by(alloc, &reply, screen)
}

/// Writes the line of the file in the reply, and returns whether there is one.
fn show_by(alloc: Global, reply: &Reply, screen: &mut Screen) -> Result<bool, Stop>
    ensures { (owner : TheAccount) (index : ℕ) → IsTold result
        (shown_by (counts_as (request.Directory owner index) reply.now) screen.old) screen.new }
{
    match reply {
        Reply::Name { name, code, blocks } => {
            let line = file_line(alloc, name, *code, *blocks)?;
            screen.write(line.as_slice())?;
            Ok(true)
        }
        Reply::Failed(fault) if is_error(*fault) => Ok(false),
        _ => Err(Stop::Expired),
    }
}

/// Returns the line of a file.
fn file_line(
    alloc: Global,
    name: &FileName,
    code: u8,
    blocks: Option<u16>,
) -> Result<Vec<u8>, NoMemory>
    ensures { IfOk result (λ line. line.items ≡ file_line name.now code blocks) }
{
    let mut line = Vec::new(alloc);
    push_at_left(&mut line, name.stem.as_bytes(), WIDE)?;
    line.push(b'.')?;
    push_at_left(&mut line, name.extension.as_bytes(), NARROW)?;
    push_blocks(&mut line, blocks)?;
    line.extend_from_slice(b"  <")?;
    line.extend_from_slice(Buffer::new().format(code).as_bytes())?;
    line.extend_from_slice(b">\r\n")?;
    Ok(line)
}

/// Appends the number of blocks, or a dash if it is not known.
fn push_blocks(line: &mut Vec<u8>, blocks: Option<u16>) -> Result<(), NoMemory>
    ensures { OnOk result (line.new.items ≡ line.old.items ++ at_right 6 (blocks_text blocks)) }
{
    match blocks {
        None => push_at_right(line, b"-"),
        Some(blocks) => push_at_right(line, Buffer::new().format(blocks).as_bytes()),
    }
}

/// Appends a string, with spaces after it up to the width.
fn push_at_left(line: &mut Vec<u8>, text: &[u8], width: usize) -> Result<(), NoMemory>
    requires { width ≤ WIDE }
    ensures { OnOk result (line.new.items ≡ line.old.items ++ at_left width text.now) }
{
    line.extend_from_slice(text)?;
    push_spaces(line, width.saturating_sub(text.len()))
}

/// Appends a string, with spaces before it up to the width of a number of blocks.
fn push_at_right(line: &mut Vec<u8>, text: &[u8]) -> Result<(), NoMemory>
    ensures { OnOk result (line.new.items ≡ line.old.items ++ at_right 6 text.now) }
{
    push_spaces(line, WIDE.saturating_sub(text.len()))?;
    line.extend_from_slice(text)?;
    Ok(())
}

fn push_spaces(line: &mut Vec<u8>, count: usize) -> Result<(), NoMemory>
    requires { count ≤ WIDE }
    ensures { OnOk result (line.new.items ≡ line.old.items ++ replicate count space) }
{
    let length = line.len();
    line.resize(length + count, b' ')?;
    Ok(())
}
