//! A law about the definitions of this crate: the contract of a function with an empty body.

ghost use Rattle.channels.specs.Sizes.{SizesStay};

/// States that at each end of an interaction tree on files the buffer of each channel has the size
/// of its records.
pub fn sizes_stay()
    ensures { SizesStay }
{}
