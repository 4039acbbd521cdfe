//! The values of BASIC-PLUS: 16-bit integers, byte strings, lists, and the ways in which a call
//! fails. This is the lowest crate.
//!
//! `Int` has the arithmetic, `compare` the order of strings, and `fronts` what a string begins
//! with. `errors` and `limits` have the numbers that code and definitions use by name. `Series` is
//! a list as contracts see it. `laws` has theorems about all this.
#![tactic(auto)]

mod arithmetic;
mod bits;
mod cuts;
mod decimals;
pub mod errors;
mod failures;
mod fronts;
mod integers;
pub mod laws;
pub mod limits;
mod lists;
mod messages;
mod texts;

pub use cuts::{behind, cut};
pub use decimals::number_between;
pub use failures::{Fault, Halt, NoMemory, Stop, Trouble};
pub use fronts::{
    blanks_at_end, blanks_in_front, digits_in_front, is_blank, letters_in_front,
    without_end_blanks, without_front_blanks,
};
pub use integers::Int;
pub use lists::{KeyLine, LINE_LENGTH, Series, Text2};
pub use texts::{MOST_BYTES, Text, compare, concat, identical};
