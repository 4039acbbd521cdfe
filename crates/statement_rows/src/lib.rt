//! Reads most statements by a table: an entry lists the pieces after the first word of a statement.
//! One function reads the pieces, and the statement is built from what was read.
//!
//! The crate builds on `statement_parts`, which reads the pieces, and on `statement_operands`, for
//! the options of OPEN and what MAT computes. A table entry is the grammar's form of its statement,
//! word for word, and `by_row` promises that form. `rows` has the table by first word, `rests` the
//! one by two words. A new statement needs one line in each list of one of them.
#![tactic(auto)]

mod lists;
mod matrices;
mod optional;
mod part;
mod piece;
mod reader;
mod rests;
mod rows;
mod singles;
mod slots;
mod source;
mod wholes;

pub use piece::Piece;
pub use rests::{dim, input, mat, on};
pub use rows::{by_row, row_of};
