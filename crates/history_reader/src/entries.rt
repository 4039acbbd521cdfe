//! The entries of a history, read from their lines.

ghost use Rattle.std.specs.Prelude.{◌≡◌, IfOk};
ghost use Rattle.basic_values.specs.Cuts.{behind};
ghost use Rattle.monitor_calls.specs.Proper.{IsProperEntry};
ghost use Rattle.deck_model.specs.Histories.{entry_line};
ghost use Rattle.history_reader.specs.LineFields.{ReadsAs};
ghost use Rattle.history_reader.specs.LineForms.{entry_read, taken_read};
ghost use Rattle.history_reader.specs.SoFar.{TakesEntry};

use crate::failures::LineError;
use crate::fields::{long_field, word};
use crate::replies::reply;
use crate::requests::request;
use basic_values::{behind, cut};
use monitor_calls::Entry;
use report_texts::push_history;
use std::alloc::Global;
use std::slice;

/// Returns the entry whose line the text begins with, and what comes after it. Fields need only be
/// read rightly if the text begins with an entry's line, for the line is written again and has to
/// be the same.
pub(crate) fn entry(alloc: Global, text: &[u8]) -> Result<(Entry, &[u8]), LineError>
    ensures { TakesEntry (λ x. (x.0, x.1.now)) text.now result }
{
    match cut(b'\n', text) {
        Some((line, _)) => taken(alloc, line, text),
        None => Err(LineError::Wrong),
    }
}

/// Returns the entry of a line, and what comes after it in the text, which begins with the line.
#[tactic(auto, unfolding(crate::specs::LineForms::taken_read))]
fn taken<'a>(alloc: Global, line: &[u8], text: &'a [u8]) -> Result<(Entry, &'a [u8]), LineError>
    ensures read { ReadsAs (λ x. (x.0, x.1.now)) result (taken_read line.now text.now) }
    ensures proper { IfOk result (λ x. IsProperEntry x.0) }
{
    let entry = parsed(alloc, line)?;
    let rest = behind_line(alloc, &entry, text)?;
    Ok((entry, rest))
}

/// Returns what a line says, if it is an entry's.
#[tactic(auto, unfolding(crate::specs::LineForms::entry_read))]
fn parsed(alloc: Global, line: &[u8]) -> Result<Entry, LineError>
    ensures read { ReadsAs (λ x. x) result (entry_read line.now) }
    ensures proper { IfOk result (λ entry. IsProperEntry entry) }
{
    let (job, rest) = long_field(line)?;
    let (request, rest) = request(alloc, rest)?;
    let (_, rest) = word(rest);
    let reply = reply(alloc, rest)?;
    Ok(Entry::new(job, request, reply))
}

/// Returns what comes after the line of an entry, if the text begins with that line.
fn behind_line<'a>(alloc: Global, entry: &Entry, text: &'a [u8]) -> Result<&'a [u8], LineError>
    ensures { ReadsAs (λ x. x.now) result (behind (entry_line entry.now) text.now) }
{
    let mut history = Vec::new(alloc);
    push_history(&mut history, slice::from_ref(entry))?;
    match cut(b'\n', history.as_slice()) {
        Some((_, line)) => stripped(line, text),
        None => Err(LineError::Wrong),
    }
}

/// Returns the text without the line that it begins with.
fn stripped<'a>(line: &[u8], text: &'a [u8]) -> Result<&'a [u8], LineError>
    ensures { ReadsAs (λ x. x.now) result (behind line.now text.now) }
{
    behind(line, text).ok_or(LineError::Wrong)
}
