//! The monitor: its state and its answer to each call, and a seat of one job at it. The crate
//! depends on `monitor_model`, whose table `Monitor::answer` implements, and on the crates of its
//! parts. `Monitor::answer` is proved to give the replies and the new states of the model.
//! `PlainSeat::close` is proved to return a legal history.
#![tactic(auto)]

mod answers;
mod channel_calls;
mod copies;
mod file_calls;
mod message_calls;
mod monitor;
mod mounting;
mod opening;
mod openings;
mod parts;
mod plain_seat;
mod printer_calls;
mod readings;
mod record_calls;
mod seats;
mod writings;

pub use monitor::Monitor;
pub use monitor_model::laws;
pub use plain_seat::PlainSeat;
pub use seats::Seat;
