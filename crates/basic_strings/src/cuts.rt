//! The length of a string, and its parts by length and place. Bytes are numbered from 1.

ghost use Rattle.std.specs.Prelude.{◌≡◌, ◌≤◌, ◌-◌, ℕ, List, length, take, drop, pos};
ghost use Rattle.basic_values.specs.Texts.{MakesText};
ghost use Rattle.basic_strings.specs.Cuts.{length_given, place_given, left_of, right_of, mid_of};
ghost use Rattle.basic_strings.specs.CutParts.{part_at};

use basic_values::{Halt, Int, MOST_BYTES, Text, Trouble};
use std::alloc::Global;

/// Returns the number of bytes: the manual's LEN.
pub fn len(bytes: &[u8]) -> Int
    requires { length bytes.now ≤ MOST_BYTES }
    ensures { result ≡ pos (length bytes.now) }
{
    Int::new(bytes.len() as i16)
}

/// Returns the first `n` bytes, or all if there are fewer: the manual's LEFT.
pub fn left(alloc: Global, bytes: &[u8], n: Int) -> Result<Text, Trouble<Halt>>
    ensures { MakesText (left_of bytes.now n) result }
{
    Text::of(alloc, first(bytes, count_of(n)))
}

/// Returns the bytes from place `n` to the end: the manual's RIGHT.
pub fn right(alloc: Global, bytes: &[u8], n: Int) -> Result<Text, Trouble<Halt>>
    ensures { MakesText (right_of bytes.now n) result }
{
    Text::of(alloc, behind(bytes, bytes_before(n)))
}

/// Returns `k` bytes from place `n` on, or as many as there are: the manual's MID.
pub fn mid(alloc: Global, bytes: &[u8], n: Int, k: Int) -> Result<Text, Trouble<Halt>>
    ensures { MakesText (mid_of bytes.now n k) result }
{
    Text::of(alloc, first(behind(bytes, bytes_before(n)), count_of(k)))
}

/// A part of a string: `count` bytes after the first `before`, or as many as there are.
#[derive(Clone, Copy)]
pub struct Cut {
    pub before: usize,
    pub count: usize,
}

/// Returns the part that the manual's LEFT takes.
pub fn left_cut(n: Int) -> Cut
    ensures { (text : List ℕ) → part_at result text ≡ left_of text n }
{
    Cut {
        before: 0,
        count: count_of(n),
    }
}

/// Returns the part that the manual's RIGHT takes.
pub fn right_cut(n: Int) -> Cut
    ensures { (text : List ℕ) → length text ≤ MOST_BYTES → part_at result text ≡ right_of text n }
{
    Cut {
        before: bytes_before(n),
        count: MOST_BYTES,
    }
}

/// Returns the part that the manual's MID takes.
pub fn mid_cut(n: Int, k: Int) -> Cut
    ensures { (text : List ℕ) → part_at result text ≡ mid_of text n k }
{
    Cut {
        before: bytes_before(n),
        count: count_of(k),
    }
}

/// Returns the number of bytes of a length; below 0 it counts as 0.
pub(crate) fn count_of(n: Int) -> usize
    ensures value { result ≡ length_given n }
    ensures bound { result ≤ MOST_BYTES }
{
    if n.value() < 0 {
        0
    } else {
        usize::from(n.value().unsigned_abs())
    }
}

/// Returns the number of bytes before a place; below 1 it counts as 1.
pub(crate) fn bytes_before(n: Int) -> usize
    ensures value { result ≡ place_given n - 1 }
    ensures bound { result ≤ 32766 }
{
    if n.value() < 1 {
        0
    } else {
        usize::from(n.value().unsigned_abs() - 1)
    }
}

fn first(bytes: &[u8], count: usize) -> &[u8]
    ensures { result.now ≡ take count bytes.now }
{
    &bytes[..count.min(bytes.len())]
}

fn behind(bytes: &[u8], count: usize) -> &[u8]
    ensures { result.now ≡ drop count bytes.now }
{
    &bytes[count.min(bytes.len())..]
}
