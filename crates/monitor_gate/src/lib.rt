//! The gate: one monitor, which jobs in many threads ask in turn, and the history of its answers.
//!
//! A gate is made over a monitor, with a spare seat. For each job, a seat is split off the spare
//! seat, and a thread asks with it (`gate`). What a seat knows is its pass (`views`): what it has
//! seen of the history, and its own pairs in it. The seats are at a table with one word and one
//! slot. The word is the turn, and the slot has the monitor with its history (`table`, `recorded`,
//! `plays`). Once a gate is shut, every call returns that memory ran out.
//!
//! `Gate::new`, `split`, `ask`, `join` and `close` are proved to keep *one history*. There is one
//! history of the monitor that answers one call at a time. Each reply is the monitor's at its place
//! there. Each seat made exactly the calls that the history has of its job.
#![tactic(auto)]

mod gate;
mod plays;
mod recorded;
mod table;
mod views;

pub use gate::{Gate, JobSeat, Spare};
pub use views::{Pass, SparePass};
