//! The jobs of a run, each in a thread of its own, over one monitor.
//!
//! `run_jobs` makes a gate over the monitor, splits a seat off for each job, runs the jobs' bodies
//! in threads, and joins the seats again (`runs`). A body asks and types through a port
//! (`terminal_port`). The port has the job's seat (`paced_seat`), which notifies a pacer of each
//! call (`pacers`), and a keyboard (`keyboards`). `BatchKeyboard` has all its lines before the job
//! begins (`batch_keyboard`). Proofs read all events of a port (`event_log`), and all notifications
//! of a pacer (`tellings`). What a job does is known by its body alone.
#![tactic(auto)]

mod batch_keyboard;
mod bodies;
mod event_log;
mod keyboards;
mod paced_seat;
mod pacers;
mod runs;
mod tellings;
mod terminal_port;

pub use batch_keyboard::BatchKeyboard;
pub use bodies::JobBody;
pub use event_log::EventLog;
pub use keyboards::Keyboard;
pub use pacers::{IdlePacer, Pacer};
pub use runs::{RunEnd, run_jobs};
pub use tellings::{Telling, Tellings};
pub use terminal_port::TerminalPort;
