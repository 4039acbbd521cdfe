//! Strings of one byte, once or many times.

ghost use Rattle.std.specs.Prelude.{◌≡◌, [], ◌∷◌, IfOk};
ghost use Rattle.basic_values.specs.Texts.{MakesText, space};
ghost use Rattle.basic_strings.specs.Bytes.{byte_of, first_byte, repeated};

use crate::cuts::count_of;
use basic_values::{Halt, Int, NoMemory, Text, Trouble};
use std::alloc::Global;

/// Returns the code of the first byte, or 0 for an empty string: the manual's ASCII.
pub fn ascii(bytes: &[u8]) -> Int
    ensures { result ≡ first_byte bytes.now }
{
    match bytes {
        [byte, ..] => Int::new(i16::from(*byte)),
        [] => Int::new(0),
    }
}

/// Returns the string of one byte, `n` modulo 256: the manual's CHR$.
pub fn chr(alloc: Global, n: Int) -> Result<Text, Trouble<Halt>>
    ensures { MakesText (byte_of n ∷ []) result }
{
    Text::of(alloc, &[low_byte(n)])
}

/// Returns `n` spaces: the manual's SPACE$.
pub fn space(alloc: Global, n: Int) -> Result<Text, Trouble<Halt>>
    ensures { MakesText (repeated n space) result }
{
    let bytes = filled(alloc, n, b' ')?;
    Text::of(alloc, &bytes)
}

/// Returns `n` times the byte `k` modulo 256: the manual's STRING$.
pub fn string(alloc: Global, n: Int, k: Int) -> Result<Text, Trouble<Halt>>
    ensures { MakesText (repeated n (byte_of k)) result }
{
    let bytes = filled(alloc, n, low_byte(k))?;
    Text::of(alloc, &bytes)
}

fn low_byte(n: Int) -> u8
    ensures { result ≡ byte_of n }
{
    n.value().rem_euclid(256) as u8
}

fn filled(alloc: Global, n: Int, byte: u8) -> Result<Vec<u8>, NoMemory>
    ensures { IfOk result (λ bytes. bytes.items ≡ repeated n byte) }
{
    Ok(vec![in alloc; byte; count_of(n)]?)
}
