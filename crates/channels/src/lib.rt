//! A job's channels, over any port: records, text, and the windows of arrays in files.
//!
//! Each call of `Channels` that makes requests promises an execution of its interaction tree.
//! `specs/Openings` has the trees of OPEN, CLOSE and the implicit close, `specs/Records` of GET,
//! PUT and UNLOCK, `specs/TextOut` of PRINT #, `specs/TextIn` of INPUT #, and `specs/Windows` of
//! arrays in files. `laws` says that each buffer keeps the size of its channel's records. The
//! buffers are those of `record_fields`, the columns those of `terminal_line`.
#![tactic(auto)]

mod channels;
pub mod laws;
mod lines;
mod openings;
mod records;
mod states;
mod text_in;
mod text_out;
mod transfers;
mod waiting;
mod windows;

pub use channels::Channels;
pub use states::{ChannelState, Waiting};
