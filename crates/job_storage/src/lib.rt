//! A job's variables and files, and what the statements on files do to them.
//!
//! `storage::Storage` is the state: the job's account, its variables, its channels and their
//! buffers, and core common. `Storage::act` promises that over any port a statement on files
//! executes the interaction tree that `program_model` has for it. So does one write, the reading of
//! a line, an element of an array in a file, and SYS. The crate uses `job_memory` for variables,
//! `channels` and `virtual_arrays` for files, `sys_calls` for the strings of SYS, and `file_names`
//! for the names that programs write.
#![tactic(auto)]

mod channel_texts;
mod fields;
mod file_acts;
mod file_elements;
mod matrices;
mod storage;
mod sys;
mod values;

pub use file_elements::second;
pub use storage::Storage;
pub use values::{bytes, copied, number, number_at, text_at};
