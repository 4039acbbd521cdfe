//! The strings of SYS: the call that each makes, and the string that the call returns.
//!
//! `specs/Table` is the table of the strings, an entry for each call. `decode` promises to find the
//! call of a string, and that exactly the strings that fit no entry are error 18. `encode` promises
//! the string of the table for a reply. `laws` says that a string is at most one call, and that a
//! reply becomes one string. Requests and replies are those of `monitor_calls`.
#![tactic(auto)]

mod calls;
mod decoding;
mod encoding;
pub mod laws;
mod receivers;

pub use calls::{MOST_COMMON, SysCall};
pub use decoding::decode;
pub use encoding::encode;
