//! The value of an item of INPUT or READ: a string or a number.

ghost use Rattle.std.specs.Prelude.{◌≡◌, ◌≤◌, ◌==◌, not, length};
ghost use Rattle.std.specs.List.{take_while, prefix_len};
ghost use Rattle.basic_strings.specs.Readings.{without_blanks};
ghost use Rattle.input_items.specs.Items.{Answers};
ghost use Rattle.program_model.specs.Items.{item_value, item_text, unquoted};
ghost use Rattle.program_model.specs.Job.{text};

use basic_strings::item_number;
use basic_values::errors::DATA_FORMAT_ERROR;
use basic_values::{Fault, NoMemory, Text, Trouble, without_end_blanks, without_front_blanks};
use job_storage::{bytes, copied};
use program_model::Value;
use std::alloc::Global;

/// Returns the bytes without the blanks around them.
pub fn without_blanks(bytes: &[u8]) -> &[u8]
    ensures { result.now ≡ without_blanks bytes.entry.now }
{
    without_end_blanks(without_front_blanks(bytes))
}

/// Returns an item as a string or as a number. Error 50: it spells no number, or it begins with a
/// quote and does not end at the matching one. Error 51: the number does not have 16 bits.
pub fn item_value(alloc: Global, is_text: bool, item: Value) -> Result<Value, Trouble<Fault>>
    ensures { Answers (item_value is_text (text item)) result }
{
    if !is_text {
        return match item_number(bytes(&item)) {
            Ok(number) => Ok(Value::Number(number)),
            Err(fault) => Err(Trouble::Refused(fault)),
        };
    }
    match item {
        Value::Number(_) => Ok(Value::Text(Text::empty(alloc))),
        Value::Text(text) => match item_text(alloc, text) {
            Ok(text) => Ok(Value::Text(text)),
            Err(Trouble::Refused(fault)) => Err(Trouble::Refused(fault)),
            Err(Trouble::NoMemory) => Err(Trouble::NoMemory),
        },
    }
}

/// Returns the string of an item: what is between its quotes, or all of it.
fn item_text(alloc: Global, item: Text) -> Result<Text, Trouble<Fault>>
    ensures { Answers (item_text item) result }
{
    match item.as_bytes() {
        [quote @ (b'"' | b'\''), rest @ ..] => unquoted(alloc, *quote, rest),
        _ => Ok(item),
    }
}

/// Returns what is between a quote and its match, if nothing follows that.
fn unquoted(alloc: Global, quote: u8, rest: &[u8]) -> Result<Text, Trouble<Fault>>
    ensures { Answers (unquoted quote rest.now) result }
{
    let between = before_quote(quote, rest);
    if rest.len() != between.len() + 1 {
        return Err(Trouble::Refused(Fault::new(DATA_FORMAT_ERROR)));
    }
    match copied(alloc, between) {
        Ok(text) => Ok(text),
        Err(NoMemory) => Err(Trouble::NoMemory),
    }
}

fn before_quote(quote: u8, rest: &[u8]) -> &[u8]
    ensures { result.now ≡ take_while (λ byte. not (byte == quote)) rest.entry.now }
{
    &rest[..count_before(quote, rest)]
}

/// Returns how many bytes are before a quote.
fn count_before(quote: u8, rest: &[u8]) -> usize
    ensures count { result ≡ prefix_len (λ byte. not (byte == quote)) rest.now }
    ensures within { result ≤ length rest.now }
{
    rest.iter().take_while(|byte| **byte != quote).count()
}
