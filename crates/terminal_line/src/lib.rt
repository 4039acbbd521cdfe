//! The screen of a terminal: the bytes that it was given, and the column of the next one.
//!
//! The view of a `Screen` is the list of its bytes. The contract of each call says which bytes it
//! adds, and `column` returns the column of the next byte. `column_from` computes the column after
//! any bytes, since channels have columns too. The crate depends on `basic_values` alone.
#![tactic(auto)]

mod columns;
pub mod laws;
mod screen;

pub use columns::{LAST_ZONE, MOST_COLUMN, ZONE_WIDTH, column_from};
pub use screen::Screen;
