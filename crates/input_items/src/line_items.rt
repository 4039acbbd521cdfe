//! INPUT: the items of a line.

ghost use Rattle.std.specs.Prelude.{◌≡◌, ◌++◌, [], ◌∷◌, IfOk, OnOk};
ghost use Rattle.basic_strings.specs.Readings.{without_blanks};
ghost use Rattle.basic_tree.specs.Tokens.{cuts, quote_after};
ghost use Rattle.input_items.specs.Items.{AnswersList, counted};
ghost use Rattle.program_model.specs.Items.{items_in_line};

use crate::item_values::without_blanks;
use basic_values::errors::NOT_ENOUGH_DATA;
use basic_values::{Fault, NoMemory, Text, Trouble};
use job_storage::copied;
use std::alloc::Global;

/// Returns the first items of a line, without the blanks around them. The line is split at the
/// commas outside quotes. Error 59: the line has fewer items.
pub fn items_of(alloc: Global, line: &[u8], count: usize) -> Result<Vec<Text>, Trouble<Fault>>
    ensures { AnswersList (counted count (items_in_line line.now)) result }
{
    let mut items = items_in_line(alloc, line)?;
    if items.len() < count {
        return Err(Trouble::Refused(Fault::new(NOT_ENOUGH_DATA)));
    }
    items.truncate(count);
    Ok(items)
}

/// Returns all items of a line.
fn items_in_line(alloc: Global, line: &[u8]) -> Result<Vec<Text>, NoMemory>
    ensures { IfOk result (λ items. items.items ≡ items_in_line line.now) }
{
    let mut items = Vec::new(alloc);
    cut_all(alloc, &mut items, line)?;
    Ok(items)
}

/// Adds the items of a line to an empty list. The list is the caller's, so nothing has to be
/// dropped at an early exit.
fn cut_all(alloc: Global, items: &mut Vec<Text>, line: &[u8]) -> Result<(), NoMemory>
    requires { items.old.items ≡ [] }
    ensures { OnOk result (items.new.items ≡ items_in_line line.now) }
{
    let mut start = 0;
    let mut quote = None;
    for (place, byte) in line.iter().enumerate() {
        if cuts(quote, *byte) {
            add_item(alloc, items, &line[start..place])?;
            start = place + 1;
            quote = None;
        } else {
            quote = quote_after(quote, *byte);
        }
    }
    add_item(alloc, items, &line[start..])?;
    Ok(())
}

/// Adds an item without the blanks around it.
fn add_item(alloc: Global, items: &mut Vec<Text>, item: &[u8]) -> Result<(), NoMemory>
    ensures { OnOk result (items.new.items ≡ items.old.items ++ without_blanks item.now ∷ []) }
{
    items.push(copied(alloc, without_blanks(item))?)?;
    Ok(())
}

/// Returns whether a byte ends an item.
fn cuts(quote: Option<u8>, byte: u8) -> bool
    ensures { result ≡ cuts quote byte }
{
    match quote {
        None => byte == b',',
        Some(_) => false,
    }
}

/// Returns the quote that is open after a byte.
fn quote_after(quote: Option<u8>, byte: u8) -> Option<u8>
    ensures { result ≡ quote_after quote byte }
{
    match quote {
        None => {
            if byte == b'"' || byte == b'\'' {
                Some(byte)
            } else {
                None
            }
        }
        Some(quote) => { if byte == quote { None } else { Some(quote) } }
    }
}
