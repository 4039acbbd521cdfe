//! What the seats of a gate know. Only proofs read it: no value of these types is made.

use monitor_calls::{Entry, Reply, Request};
use monitor_core::Monitor;
use std::collections::LinkedList;

/// What the seat of a job knows: the monitor's state when the gate was made, the job's number, a
/// history that it has seen, and the pairs of its own calls.
pub struct Pass {
    pub opening: Monitor,
    pub job: u32,
    pub seen: LinkedList<Entry>,
    pub mine: LinkedList<(Request, Reply)>,
}

/// What the spare seat knows: the monitor's state when the gate was made, how many seats were split
/// off, a history that it has seen, and the passes of the seats that were joined.
pub struct SparePass {
    pub opening: Monitor,
    pub made: u32,
    pub seen: LinkedList<Entry>,
    pub ended: LinkedList<Pass>,
}

/// What a seat at the table knows.
pub(crate) enum Knows {
    Spare(SparePass),
    Asks(Pass),
    /// It has the turn, and found this history.
    HasTurn(Pass, LinkedList<Entry>),
    /// Its pass was joined.
    Spent,
}
