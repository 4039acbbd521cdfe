//! The items of INPUT and READ: those of a key line, the next one of DATA, and the value of an
//! item.
//!
//! `items_of` promises that a line gives as many items as required or fails, `next_item` that an
//! item of DATA is taken once, and `item_value` which string or number an item is. The definitions
//! are in `program_model`.
#![tactic(auto)]

mod data_items;
mod item_values;
mod line_items;

pub use data_items::next_item;
pub use item_values::{item_value, without_blanks};
pub use line_items::items_of;
