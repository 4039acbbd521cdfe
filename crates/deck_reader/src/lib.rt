//! Decks, read from their bytes.
//!
//! `read_deck` has the theorem. Bytes that spell a deck are read as that deck. Other bytes are
//! rejected at the first line that no deck can have there, for the first cause that applies to it
//! (`reading`). A deck is read line by line. `fronts` keeps what the lines said so far and adds one
//! more. `files` has the files with their content and their pages, `forms` finds the form of a
//! line, and `lines` cuts bytes into lines. The crate depends on `deck_model`, which defines decks
//! and rejections, and on `monitor_calls` for accounts and volumes.
#![tactic(auto)]

mod decks;
mod failures;
mod files;
mod forms;
mod fronts;
mod lines;
mod reading;

pub use decks::{Deck, Terminal};
pub use lines::next_line;
pub use reading::read_deck;
