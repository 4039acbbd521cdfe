//! Decks and reports as texts: definitions, laws, and the causes for which a deck is rejected.
//!
//! `specs/Spelling` says which bytes spell which deck, in three versions. `specs/Refusals` says at
//! which line and for which cause other bytes are rejected. They use the words of `specs/Lines`,
//! `Forms` and `Fronts`. `specs/Report` and `Histories` say what a run writes, and
//! `specs/DiskTexts` which deck it leaves. `specs/Reading` reads a deck line by line. No promise of
//! the program mentions it. The lemmas of `proofs/ReadingLaws` prove that it finds exactly the
//! decks and the rejections that are defined. The crate depends on `monitor_calls` for accounts and
//! volumes, and on `basic_values` for decimals.
//!
//! `laws::one_verdict` promises that bytes spell at most one deck, or are rejected at one line for
//! one cause, and never both. `laws::version_one` promises that quotas add nothing to version 1.
//! `laws::round_trip` promises that the text of a disk spells the deck of that disk.
#![tactic(auto)]

mod faults;
pub mod laws;
mod limits;
mod versions;

pub use faults::{DeckCause, DeckFault};
pub use limits::MOST_DECK_BYTES;
pub use versions::Version;
