//! The limit of a deck that a run writes.

/// The most bytes of an input that starts with a deck of version 3: 32 MiB. The text of every disk
/// is shorter.
pub const MOST_DECK_BYTES: usize = 33_554_432;
