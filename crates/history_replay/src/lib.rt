//! The core of a replay. On one thread, it finds whether a list of entries is a history of jobs
//! that do this, or where it first fails.
//!
//! `replay` has the theorem. It asks a newly opened monitor each entry's request and compares the
//! reply (`answers`). Then it runs each job's body (`jobs`) over a keyboard and a seat
//! (`list_seat`). The seat replies what the job's entries say, which an index finds (`index`). What
//! a job does is known by its body alone. `after_history` does the first of both, and returns the
//! monitor as it is after the entries.
#![tactic(auto)]

mod answers;
mod disputes;
mod index;
mod jobs;
mod list_seat;
mod replays;
mod replies;
mod requests;
mod values;

pub use answers::after_history;
pub use disputes::Dispute;
pub use replays::replay;
