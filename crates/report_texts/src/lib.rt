//! What the program writes: the report of a run, the text of a history, the line of a good deck.
//!
//! Each call promises exactly the bytes of its definition in `deck_model` (`reports`, `histories`).
#![tactic(auto)]

mod histories;
mod reports;

pub use histories::{push_hex, push_history, push_reply, push_request};
pub use reports::{good_line, report};
