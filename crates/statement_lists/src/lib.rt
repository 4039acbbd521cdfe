//! Reads lists that are separated by commas, by one function for all kinds of elements, and the
//! statements that are mainly lists: assignments and PRINT USING. CHAIN is here too, the only
//! statement in which a number comes right after a string.
//!
//! Everything is made of the parts of `statement_parts`, and the contracts have the same shape.
//! Whatever is expected after the form, the words up to the end lead from it to what is made of the
//! value, or the machine stops at that word. The mutants of this crate change what is easy to get
//! wrong in a list, since its proofs are small.
#![tactic(auto)]

mod assignments;
mod chaining;
mod list_elements;
mod lists;
mod using;

pub use assignments::{Assigned, assignment, want_of};
pub use chaining::chain;
pub use lists::{Element, elements};
pub use using::print_using;
