//! The values of PRINT USING.

/// A value of PRINT USING: a 16-bit integer, or the bytes of a string.
#[derive(Clone, Copy)]
pub enum Using<'a> {
    Number(i16),
    Text(&'a [u8]),
}
