//! What the words after the program's name ask for.
//!
//! The words are those of one flat command: an action, a count, and the flags `--history` and
//! `--printer`. `asked_by` is proved to return `asked` of `specs/Words`, unless memory runs out.
//! The words are parsed by `clap` (`command`). `specs/CommandLine` says what the result of that
//! parse is, and you need not trust it. The crate depends on `basic_values`, for out of memory.
#![tactic(auto)]

mod command;
mod words;

pub use words::{Asked, MOST_DRILL_JOBS, Wanted, asked_by};
