//! Strings: lists of at most 32,767 bytes.

ghost use Rattle.std.specs.Prelude.{◌≡◌, ◌≤◌, ◌++◌, ◌↔◌, [], IsTrue, IfOk, length, take, drop};
ghost use Rattle.std.specs.Prelude.{slice_index_or};
ghost use Rattle.basic_values.specs.Becoming.{Becomes};
ghost use Rattle.basic_values.specs.Texts.{MakesText, order_of, space};

use crate::failures::{Halt, NoMemory, Trouble};
use std::alloc::Global;
use std::cmp::Ordering;
use std::marker::Model;

/// The most bytes of a string.
pub const MOST_BYTES: usize = 32767;

/// A string of BASIC-PLUS: at most 32,767 bytes, of any kind.
#[derive(Debug, Drop)]
pub struct Text {
    bytes: Vec<u8>,
}

impl Model for Text {
    ghost use Rattle.std.specs.Prelude.{List, ℕ, ◌≤◌, vec_len};
    ghost use Rattle.basic_values.specs.declared.texts.TheConstants.{MOST_BYTES};

    ghost Value = { List ℕ };

    ghost view = { λ text. text.bytes.items };

    ghost invariant = { λ text. vec_len text.bytes ≤ MOST_BYTES };
}

impl Text {
    /// Returns a copy of the bytes, or the halt `TooLong` if they are more than 32,767.
    pub fn of(alloc: Global, bytes: &[u8]) -> Result<Text, Trouble<Halt>>
        ensures { MakesText bytes.now result }
    {
        concat(alloc, bytes, &[])
    }

    /// Returns the empty string. It takes no memory.
    pub fn empty(alloc: Global) -> Text
        ensures { result ≡ [] }
    {
        Text {
            bytes: Vec::new(alloc),
        }
    }

    /// Appends bytes to the string in place. If it would have more than 32,767 bytes (the halt
    /// `TooLong`), or if memory runs out, the string stays as it was.
    pub fn append(&mut self, more: &[u8]) -> Result<(), Trouble<Halt>>
        ensures { Becomes (self.old ++ more.now) self.old self.new result }
    {
        if more.len() > MOST_BYTES - self.bytes.len() {
            return Err(Trouble::Refused(Halt::TooLong));
        }
        match self.bytes.extend_from_slice(more) {
            Ok(()) => Ok(()),
            Err(_) => Err(Trouble::NoMemory),
        }
    }

    /// Keeps only the `count` bytes from place `before` on, or as many as there are, in place. It
    /// takes no memory.
    pub fn cut(&mut self, before: usize, count: usize)
        ensures { self.new ≡ take count (drop before self.old) }
    {
        let before = before.min(self.bytes.len());
        let kept = count.min(self.bytes.len() - before);
        self.bytes.copy_within(before..before + kept, 0);
        self.bytes.truncate(kept);
    }

    /// Returns the bytes of the string.
    pub fn as_bytes(&self) -> &[u8]
        ensures bytes { result.now ≡ self.now }
        ensures short { length self.now ≤ MOST_BYTES }
    {
        self.bytes.as_slice()
    }
}

/// Returns the bytes of `a` and then those of `b`: the manual's `+` on strings. More than 32,767
/// bytes are the halt `TooLong`.
pub fn concat(alloc: Global, a: &[u8], b: &[u8]) -> Result<Text, Trouble<Halt>>
    ensures { MakesText (a.now ++ b.now) result }
{
    if a.len() > MOST_BYTES || b.len() > MOST_BYTES - a.len() {
        return Err(Trouble::Refused(Halt::TooLong));
    }
    let bytes = joined(alloc, a, b)?;
    Ok(Text { bytes })
}

fn joined(alloc: Global, a: &[u8], b: &[u8]) -> Result<Vec<u8>, NoMemory>
    ensures { IfOk result (λ bytes. bytes.items ≡ a.now ++ b.now) }
{
    let mut bytes = Vec::with_capacity(alloc, a.len() + b.len())?;
    bytes.extend_from_slice(a)?;
    bytes.extend_from_slice(b)?;
    Ok(bytes)
}

/// Compares two strings after the shorter is padded with spaces, as the manual's `=`, `<` and
/// similar relations do.
pub fn compare(a: &[u8], b: &[u8]) -> Ordering
    ensures { result ≡ order_of a.now b.now }
{
    for place in 0..a.len().max(b.len()) {
        let left = byte_or_space(a, place);
        let right = byte_or_space(b, place);
        if left != right {
            return left.cmp(&right);
        }
    }
    Ordering::Equal
}

/// Returns the byte at this place of a string with spaces after it.
fn byte_or_space(text: &[u8], place: usize) -> u8
    ensures { result ≡ slice_index_or text.now place space }
{
    text.get(place).copied().unwrap_or(b' ')
}

/// Returns whether both have the same bytes: the manual's `==` on strings.
pub fn identical(a: &[u8], b: &[u8]) -> bool
    ensures { IsTrue result ↔ (a.now ≡ b.now) }
{
    a == b
}
