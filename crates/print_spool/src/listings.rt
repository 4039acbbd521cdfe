//! What is printed.

ghost use Rattle.std.specs.Prelude.{◌≡◌, ◌++◌, codes, length, IfOk, OnOk};
ghost use Rattle.std.specs.Fmt.{decimal};
ghost use Rattle.monitor_model.specs.Listings.{is_begin, is_finish, printed_by, listing, listings};
ghost use Rattle.print_spool.specs.Printed.{AreNamed, listing_text, listing_texts, printed_text};

use basic_values::NoMemory;
use itoa::Buffer;
use monitor_calls::{Entry, Reply, Request, TerminalName};
use std::alloc::Global;

/// Returns what the printer printed in a history: how many print jobs there are, and then each one
/// in the order in which they begin. The name of the terminal and the number of bytes come before
/// each. Each job has a name.
///
/// It reads each entry once to count the print jobs, once to find where they begin, and once in
/// each print job that is open there. The print jobs of a monitor's history do not overlap.
pub fn printed(
    alloc: Global,
    names: &[TerminalName],
    history: &[Entry],
) -> Result<Vec<u8>, NoMemory>
    requires { AreNamed names.now history.now }
    ensures { IfOk result (λ out. out.items ≡ printed_text names.now history.now) }
{
    let mut out = Vec::new(alloc);
    out.extend_from_slice(b"PRINTED ")?;
    push_count(&mut out, count_listings(history))?;
    push_listings(alloc, &mut out, names, history)?;
    Ok(out)
}

fn count_listings(history: &[Entry]) -> usize
    ensures { result ≡ length (listings history.now) }
{
    let mut count = 0;
    for entry in history {
        if begins(entry) {
            count += 1;
        }
    }
    count
}

/// Writes the print jobs that begin in these entries.
fn push_listings(
    alloc: Global,
    out: &mut Vec<u8>,
    names: &[TerminalName],
    history: &[Entry],
) -> Result<(), NoMemory>
    requires { AreNamed names.now history.now }
    ensures { OnOk result
        (out.new.items ≡ out.old.items ++ listing_texts names.now (listings history.now)) }
{
    for (place, entry) in history.iter().enumerate() {
        if begins(entry) {
            let later = &history[place + 1..];
            push_listing(alloc, out, &names[entry.job as usize], entry.job, later)?;
        }
    }
    Ok(())
}

/// Writes the print job that a job has begun before these entries.
fn push_listing(
    alloc: Global,
    out: &mut Vec<u8>,
    name: &TerminalName,
    job: u32,
    later: &[Entry],
) -> Result<(), NoMemory>
    ensures { OnOk result
        (out.new.items ≡ out.old.items ++ listing_text name.now (listing job later.now)) }
{
    let mut text = Vec::new(alloc);
    push_printed(&mut text, job, later)?;
    push_titled(out, name, text.as_slice())
}

// The writes of a print job are in functions of their own. In one function, the string would still
// have to be dropped at each early return, and the long chain of writes would be slow to check.

/// Writes a print job with the line before it.
fn push_titled(out: &mut Vec<u8>, name: &TerminalName, text: &[u8]) -> Result<(), NoMemory>
    ensures { OnOk result (out.new.items ≡ out.old.items ++ listing_text name.now text.now) }
{
    push_title(out, name, text.len())?;
    out.extend_from_slice(text)?;
    Ok(out.push(b'\n')?)
}

/// Writes the line before a print job, which has this many bytes.
fn push_title(out: &mut Vec<u8>, name: &TerminalName, count: usize) -> Result<(), NoMemory>
    ensures { OnOk result (out.new.items ≡ out.old.items
        ++ (codes "LISTING " ++ name.now ++ codes " " ++ decimal count ++ codes "\n")) }
{
    out.extend_from_slice(b"LISTING ")?;
    out.extend_from_slice(name.as_bytes())?;
    out.push(b' ')?;
    push_count(out, count)
}

/// Writes a count and the end of its line.
fn push_count(out: &mut Vec<u8>, count: usize) -> Result<(), NoMemory>
    ensures { OnOk result (out.new.items ≡ out.old.items ++ decimal count ++ codes "\n") }
{
    let mut buffer = Buffer::new();
    out.extend_from_slice(buffer.format(count).as_bytes())?;
    Ok(out.push(b'\n')?)
}

/// Writes what a job prints, up to the end of its print job.
fn push_printed(out: &mut Vec<u8>, job: u32, later: &[Entry]) -> Result<(), NoMemory>
    ensures { OnOk result (out.new.items ≡ out.old.items ++ listing job later.now) }
{
    for entry in later {
        if entry.job == job {
            if finishes(entry) {
                return Ok(());
            }
            out.extend_from_slice(text_of(entry))?;
        }
    }
    Ok(())
}

/// Returns whether a print job begins with this entry.
fn begins(entry: &Entry) -> bool
    ensures { result ≡ is_begin entry.now.request entry.now.reply }
{
    matches!(
        (&entry.request, &entry.reply),
        (Request::OpenPrinter, Reply::Done)
    )
}

/// Returns whether this entry ends the print job of its job.
fn finishes(entry: &Entry) -> bool
    ensures { result ≡ is_finish entry.now.request entry.now.reply }
{
    match (&entry.request, &entry.reply) {
        (Request::Logout, _) | (_, Reply::Expired) => true,
        (Request::ClosePrinter, Reply::Done) => true,
        _ => false,
    }
}

/// Returns what an entry prints.
fn text_of(entry: &Entry) -> &[u8]
    ensures { result.now ≡ printed_by entry.now.request entry.now.reply }
{
    match (&entry.request, &entry.reply) {
        (Request::Print { text }, Reply::Done) => text.as_bytes(),
        _ => &[],
    }
}
