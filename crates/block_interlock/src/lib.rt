//! The interlock: which channel holds a block.
//!
//! The crate depends on `monitor_model`, whose `Holds` is one map of blocks to channels.
//! `Holds::holder` and `held_by` are proved to return what that map says. `hold` and `release`
//! change it, and take no memory.
#![tactic(auto)]

mod holds;
mod index;
mod runs;

pub use holds::Holds;
pub use runs::Run;
