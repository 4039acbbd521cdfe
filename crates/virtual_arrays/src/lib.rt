//! Virtual arrays: arrays whose elements are in the file of a channel.
//!
//! `element_place` promises where in its file an element is. `read` and `write` follow the
//! interaction trees of `specs/Elements`. `laws` says that an element is in one block, for each
//! array that a DIM # declares. The windows are those of `channels`; places under bounds and parts
//! of buffers are those of `record_fields`.
#![tactic(auto)]

mod elements;
pub mod laws;
mod places;

pub use elements::{Element, read, write, write_number, write_text};
pub use places::{Place, VirtualShape, element_place};
