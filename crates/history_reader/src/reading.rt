//! A history read from its text, line by line.

ghost use Rattle.std.specs.Prelude.{◌≡◌, ◌||◌, ◌++◌, ◌∷◌, [], ℕ, List, OnOk, bytes_eq};
ghost use Rattle.std.specs.Fmt.{decimal};
ghost use Rattle.deck_model.specs.Histories.{count_text};
ghost use Rattle.history_reader.specs.Counts.{is_star};
ghost use Rattle.history_reader.specs.HistoryReading.{ReadsHistory};
ghost use Rattle.history_reader.specs.SoFar.{SoFar, FindsHeading};

use crate::counts::{is_allowed, is_star};
use crate::entries::entry;
use basic_values::{NoMemory, Trouble, behind, cut};
use itoa::Buffer;
use monitor_calls::Entry;
use std::alloc::Global;

/// Returns the history whose text this is: `HISTORY` and the number of its entries, and a line for
/// each. A journal has a star in place of the number. A text that is no history's is rejected with
/// the number of its whole lines that begin one.
pub fn read_history(alloc: Global, text: &[u8]) -> Result<Vec<Entry>, Trouble<usize>>
    ensures { ReadsHistory text.now result }
{
    match heading(text) {
        Some((count, rest)) => entries(alloc, count, rest),
        None => Err(Trouble::Refused(0)),
    }
}

/// Returns the count in the first line, and what comes after that line.
fn heading(text: &[u8]) -> Option<(&[u8], &[u8])>
    ensures { FindsHeading (λ x. (x.0.now, x.1.now)) text.now result }
{
    let (line, rest) = cut(b'\n', text)?;
    let count = behind(b"HISTORY ", line)?;
    if is_allowed(count) {
        Some((count, rest))
    } else {
        None
    }
}

/// Returns the history of these entries, which are as many as the count says if it is a number.
fn entries(alloc: Global, count: &[u8], text: &[u8]) -> Result<Vec<Entry>, Trouble<usize>>
    ensures { (whole : List ℕ) → SoFar whole count.now [] text.now → ReadsHistory whole result }
{
    let mut entries = Vec::new(alloc);
    let mut rest = text;
    while !rest.is_empty() {
        let good = entries.len();
        if is_decimal_of(good, count) {
            return Err(Trouble::Refused(good + 1));
        }
        let (next, after) = match entry(alloc, rest) {
            Ok(found) => found,
            Err(error) => return Err(error.at(good + 1)),
        };
        push(&mut entries, next)?;
        rest = after;
    }
    let all = entries.len();
    if is_met(all, count) {
        Ok(entries)
    } else {
        Err(Trouble::Refused(all + 1))
    }
}

/// Returns whether a history of this many entries may have this count.
fn is_met(number: usize, count: &[u8]) -> bool
    ensures { result ≡ (is_star count.now || bytes_eq count.now (count_text number)) }
{
    is_star(count) || is_decimal_of(number, count)
}

/// Returns whether the text is all digits of the number.
fn is_decimal_of(number: usize, text: &[u8]) -> bool
    ensures { result ≡ bytes_eq text.now (count_text number) }
{
    is_formatted(number, text)
}

fn is_formatted(number: usize, text: &[u8]) -> bool
    ensures { result ≡ bytes_eq text.now (decimal number) }
{
    let mut buffer = Buffer::new();
    text == buffer.format(number).as_bytes()
}

fn push(entries: &mut Vec<Entry>, entry: Entry) -> Result<(), NoMemory>
    ensures { OnOk result (entries.new.items ≡ entries.old.items ++ entry ∷ []) }
{
    Ok(entries.push(entry)?)
}
