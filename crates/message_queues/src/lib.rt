//! The message receivers, and the letters that wait at each.
//!
//! The crate depends on `monitor_model`, whose `Queues` says what each call leaves. Each call of
//! `Queues` is proved to be its definition, and is refused exactly if that says so. `send` and
//! `receive` take no memory.
#![tactic(auto)]

mod queues;

pub use monitor_model::Letter;
pub use queues::Queues;
