//! Histories, read from their texts.
//!
//! `read_history` has the theorem. A text is read as the history that it is the text of. A text
//! that is no history's is rejected after the last of its whole lines that begin one (`reading`).
//! `counts` reads the count in the first line, `entries` reads one line more, and `requests` and
//! `replies` find what a line says. `fields` and `hexes` read its words. `laws` states that the
//! text alone decides the history or the rejected line. The crate depends on `deck_model`, which
//! says what the text of a history is, and on `report_texts`, which writes it.
#![tactic(auto)]

mod counts;
mod entries;
mod failures;
mod fields;
mod hexes;
pub mod laws;
mod reading;
mod replies;
mod requests;

pub use reading::read_history;
