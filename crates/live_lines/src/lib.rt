//! Lines that are typed at terminals while a run goes on, read from a source that stays open.
//!
//! `specs/LiveLines` defines what a line says. `live_line` reads one (`lines`). `LineReader` reads
//! a source in lines, and takes no byte while it has a whole line, so that a line is read as soon
//! as it was typed (`reader`). `own_lines` is the law that each terminal gets its own lines
//! (`laws`).
#![tactic(auto)]

mod laws;
mod lines;
mod reader;

pub use laws::own_lines;
pub use lines::live_line;
pub use reader::{CHUNK, LineReader, NextLine};
