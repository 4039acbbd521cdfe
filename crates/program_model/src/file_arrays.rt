//! How large the elements of arrays in files are. The manual's DIM #.

/// The bytes of a number.
pub const NUMBER_BYTES: u16 = 2;

/// The bytes of a string, if DIM # does not say.
pub const TEXT_BYTES: u16 = 16;
