//! Values by their place in a list: a missing one counts as 0, and as an empty string.

ghost use Rattle.std.specs.Prelude.{◌≡◌, ◌≤◌, drop, length, map, IfOk};
ghost use Rattle.basic_values.specs.declared.texts.TheConstants.{MOST_BYTES};
ghost use Rattle.program_model.specs.Job.{number, text};
ghost use Rattle.program_model.specs.Functions.{number_at, text_at};

use basic_values::{Int, NoMemory, Text};
use program_model::Value;
use std::alloc::Global;

/// Returns the number of a value, 0 for a string.
pub fn number(value: &Value) -> Int
    ensures { result ≡ number value.now }
{
    match value {
        Value::Number(number) => *number,
        Value::Text(_) => Int::new(0),
    }
}

/// Returns the bytes of a value, none for a number.
pub fn bytes(value: &Value) -> &[u8]
    ensures bytes { result.now ≡ text value.entry.now }
    ensures short { length result.now ≤ MOST_BYTES }
{
    match value {
        Value::Number(_) => &[],
        Value::Text(text) => text.as_bytes(),
    }
}

/// Returns a copy of a string that is not too long: only memory may run out.
pub fn copied(alloc: Global, bytes: &[u8]) -> Result<Text, NoMemory>
    ensures { IfOk result (λ text. text ≡ bytes.now) }
{
    match Text::of(alloc, bytes) {
        Ok(text) => Ok(text),
        Err(_) => Err(NoMemory),
    }
}

/// Returns the value at this place, from 0, as a number.
pub fn number_at(place: usize, values: &[Value]) -> Int
    ensures { result ≡ number_at place values.now }
{
    match values.get(place) {
        Some(value) => number(value),
        None => Int::new(0),
    }
}

/// Returns the value at this place, from 0, as a string.
pub fn text_at(place: usize, values: &[Value]) -> &[u8]
    ensures bytes { result.now ≡ text_at place values.entry.now }
    ensures short { length result.now ≤ MOST_BYTES }
{
    match values.get(place) {
        Some(value) => bytes(value),
        None => &[],
    }
}

/// Returns the values after the first.
pub(crate) fn behind_first(values: &[Value]) -> &[Value]
    ensures { result.now ≡ drop 1 values.entry.now }
{
    match values {
        [_, rest @ ..] => rest,
        [] => &[],
    }
}

/// Returns the values as numbers.
pub(crate) fn numbers(alloc: Global, values: &[Value]) -> Result<Vec<Int>, NoMemory>
    ensures { IfOk result (λ numbers. numbers.items ≡ map number values.now) }
{
    let mut numbers = Vec::new(alloc);
    for value in values {
        numbers.push(number(value))?;
    }
    Ok(numbers)
}
