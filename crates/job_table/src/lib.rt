//! What the monitor keeps of each job: its account, its calls since login, and its channels. The
//! crate depends on `monitor_model`, whose `Jobs` says what each call of `JobTable` returns and
//! leaves.
#![tactic(auto)]

mod tables;

pub use monitor_model::{ChannelEntry, JobEntry};
pub use tables::JobTable;
