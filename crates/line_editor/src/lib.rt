//! The text of a program: a map from line numbers to lines.
//!
//! Contracts see `ProgramText` as the list of its lines in order, each with the bytes after its
//! number. It keeps them as they are listed, in one buffer, so `list` and `line` borrow parts of it
//! and take no memory.
//!
//! `put_line` and `delete` promise what changes and what is rejected, and `list` which bytes are
//! listed. `program` promises that the trees are those that the bytes spell, and `to_file` and
//! `from_file` that a file is read as it was written. `basic_line` reads the lines; pages are those
//! of `monitor_calls`.
#![tactic(auto)]

mod buffer;
mod files;
mod numbers;
mod text;

pub use numbers::{Numbered, line_number};
pub use text::{EditRefusal, ProgramText};
