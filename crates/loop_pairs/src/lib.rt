//! FORs and the NEXTs that close them.
//!
//! `pairs_in` goes over the statements of a program, and pairs each NEXT with the FOR that it
//! closes, the nearest open one of its body. `nexts_in` and `fors_in` make two tables of the pairs:
//! the NEXT of each FOR, and the FOR of each NEXT. The contract of each is the definition of
//! `program_model` for it.
//!
//! `same_body` and `same_name` say whether two statements are in one body, and whether two names
//! are equal; `entry_at` reads a table.
#![tactic(auto)]

mod opens;
mod pairs;
mod same;
mod tables;

pub use pairs::{Pair, pairs_in};
pub use same::{same_body, same_name};
pub use tables::{entry_at, fors_in, nexts_in};
