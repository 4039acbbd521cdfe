//! The execution of bytecode instructions that call no function of the program, and the beginning
//! and the end of a call. Each one runs on the state of a job and does what its interaction tree
//! says. `Running::ask_item` does the instructions that ask the monitor or take a key line, over
//! any port: it executes their tree.
//!
//! `state::Running` is the state; its model is the job of the definitions. `stack::Stack` has the
//! values that instructions leave for later ones. `Running::step` promises that the new stack and
//! the new state are those of the instruction's tree, at its value or at its break. If memory runs
//! out, it promises nothing about them. If a program stops, the state has the reason, so that the
//! result of an instruction needs no memory.
//!
//! `Running::run_from_number` executes instructions that begin with a number, or with a string of
//! which a function gives a number. It continues as long as each one takes the last number and
//! leaves another, which never goes over the stack. `Running::act_jointly` executes
//! superinstructions, and reads strings in place. `Running::run_in_place` changes a string in
//! place. The crate uses `polish_code`, which has the instructions and their trees, and
//! `input_items` for what INPUT and READ take.
#![tactic(auto)]

mod asking;
mod calls;
mod chains;
pub mod exits;
mod fields;
mod file_elements;
mod functions;
mod gosub;
mod input;
mod joints;
mod lending;
mod loops;
mod matrices;
mod number_runs;
mod numbers;
mod on_channels;
mod printing;
mod reading;
mod relations;
pub mod spots;
pub mod stack;
pub mod state;
mod step;
mod text_changes;
mod traps;
mod using;
mod values;
mod variables;

pub use exits::{Exit, Move};
pub use job_storage::Storage;
pub use joints::Joint;
pub use lending::{Leaf, Leaves};
pub use spots::Spot;
pub use stack::Stack;
pub use state::Running;
pub use step::{is_ask, is_call, is_sys};
pub use variables::exit_at;
