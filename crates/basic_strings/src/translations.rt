//! Strings whose bytes are looked up in a table.

ghost use Rattle.std.specs.Prelude.{◌≡◌, IfOk, slice_index};
ghost use Rattle.basic_values.specs.Texts.{MakesText};
ghost use Rattle.basic_strings.specs.Translations.{translated};

use basic_values::{Halt, NoMemory, Text, Trouble};
use std::alloc::Global;

/// Returns byte n of `b`, counted from 0, for each byte n of `a`; nothing if that is missing or 0.
/// The manual's XLATE.
pub fn xlate(alloc: Global, a: &[u8], b: &[u8]) -> Result<Text, Trouble<Halt>>
    ensures { MakesText (translated b.now a.now) result }
{
    let bytes = translation(alloc, a, b)?;
    Text::of(alloc, &bytes)
}

/// Returns the byte of the table at this place, counted from 0; 0 past the end.
fn byte_behind(table: &[u8], count: u8) -> u8
    ensures { result ≡ slice_index table.now count }
{
    table.get(usize::from(count)).copied().unwrap_or(0)
}

/// Returns the bytes that are found for those of the string.
fn translation(alloc: Global, text: &[u8], table: &[u8]) -> Result<Vec<u8>, NoMemory>
    ensures { IfOk result (λ bytes. bytes.items ≡ translated table.now text.now) }
{
    let mut bytes = Vec::new(alloc);
    for byte in text {
        let found = byte_behind(table, *byte);
        if found != 0 {
            bytes.push(found)?;
        }
    }
    Ok(bytes)
}
