//! Reads the operands of statements that are not lists: the options of OPEN, and what MAT computes.
//!
//! The crate builds on `statement_parts`, which reads the single words and expressions. `options`,
//! `option` and `operands` promise the grammar's form of what they read.
#![tactic(auto)]

mod matrix_operands;
mod open_options;

pub use matrix_operands::operands;
pub use open_options::{OpenOptions, option, options};
