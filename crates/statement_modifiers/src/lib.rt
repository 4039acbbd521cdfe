//! Reads the modifiers after a statement: IF, UNLESS, WHILE, UNTIL and FOR.
//!
//! The crate builds on `statement_parts`, which reads the conditions and ranges. `modifiers`
//! promises the given statement with all the modifiers that the words after it spell, or the place
//! in them where the machine stops.
#![tactic(auto)]

mod modifier_list;

pub use modifier_list::modifiers;
