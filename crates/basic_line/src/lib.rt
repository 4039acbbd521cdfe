//! Reads the lines of the language: the statements of a line one after another, and IF with its
//! clauses.
//!
//! The crate builds on `basic_stmt`, which reads the other statements, on `statement_modifiers`,
//! which reads the modifiers after them, and on `basic_tree`, whose grammar says which words spell
//! which line. `read_line` takes the bytes of a line. It reads exactly those that spell a line, and
//! rejects the others at the byte or token that the grammar names. `parse_line` promises the same
//! of tokens.
#![tactic(auto)]

mod choices;
mod lines;
mod sentences;

pub use lines::{parse_line, read_line};
