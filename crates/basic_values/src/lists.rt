//! Lists, which contracts see as their values in order.

ghost use Rattle.std.specs.Prelude.{◌≡◌, ◌≤◌, ◌<◌, ◌↔◌, length, [], ◌++◌, IfOk, OnOk, OnErr};
ghost use Rattle.std.specs.Prelude.{IsSome, IfSome};

use crate::failures::{NoMemory, Trouble};
use std::alloc::Global;
use std::marker::Model;

/// The most bytes of a key line.
pub const LINE_LENGTH: usize = 255;

/// A line that is typed, without its RETURN: at most 255 bytes, of any kind.
#[derive(Debug, Drop)]
pub struct KeyLine {
    bytes: Vec<u8>,
}

impl Model for KeyLine {
    ghost use Rattle.std.specs.Prelude.{List, ℕ, ◌≤◌, vec_len};
    ghost use Rattle.basic_values.specs.declared.lists.TheConstants.{LINE_LENGTH};

    ghost Value = { List ℕ };

    ghost view = { λ line. line.bytes.items };

    ghost invariant = { λ line. vec_len line.bytes ≤ LINE_LENGTH };
}

impl KeyLine {
    /// Returns a copy of the bytes.
    pub fn of(alloc: Global, bytes: &[u8]) -> Result<KeyLine, NoMemory>
        requires { length bytes.now ≤ LINE_LENGTH }
        ensures { IfOk result (λ line. line ≡ bytes.now) }
    {
        Ok(KeyLine {
            bytes: Vec::from_slice(alloc, bytes)?,
        })
    }

    pub fn as_bytes(&self) -> &[u8]
        ensures bytes { result.now ≡ self.now }
        ensures short { length self.now ≤ LINE_LENGTH }
    {
        self.bytes.as_slice()
    }
}

/// Values in order, any number of them.
#[derive(Drop)]
pub struct Series<T> {
    items: Vec<T>,
}

impl<T> Model for Series<T> {
    ghost use Rattle.std.specs.Prelude.{List};

    ghost Value = { List T };

    ghost view = { λ series. series.items.items };
}

impl<T> Series<T> {
    /// Returns the list of these values, without copying them.
    pub fn from_vec(items: Vec<T>) -> Series<T>
        ensures { result ≡ items.items }
    {
        Series { items }
    }

    pub fn as_slice(&self) -> &[T]
        ensures { result.now ≡ self.now }
    {
        self.items.as_slice()
    }
}

/// A list of bytes of any length.
pub type Text2 = Series<u8>;
