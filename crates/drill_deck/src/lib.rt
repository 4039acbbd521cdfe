//! The drill: a deck whose terminals count in one block, and the counts of its run.
//!
//! `drill_deck` makes the deck of `specs/DrillDeck`, without reading bytes, and promises that it
//! can be run. `tally_of` counts the Puts that were done in a history and reads the last number
//! written, and `drill_line` is the line that is written of them (`specs/Tallies`).
#![tactic(auto)]

mod decks;
mod tallies;

pub use decks::drill_deck;
pub use tallies::{Tally, drill_line, tally_of};
