//! Reads the statements of the language, except IF and without their modifiers, from the words of a
//! line.
//!
//! The crate builds on `statement_rows` for the statements of the table, on `statement_lists` for
//! CHAIN and PRINT USING, and on `statement_parts` for the others: PRINT, DEF, assignments and
//! results of functions. `plain_at` promises that it reads the statement that the words spell, and
//! that no line continues where it stops. `statement_modifiers` reads modifiers; `basic_line` reads
//! IF and lines.
#![tactic(auto)]

mod plain;
mod printing;
mod values;

pub use plain::plain_at;
