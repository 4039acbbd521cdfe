//! The events of a port.

use crate::calls::{Reply, Request};
use basic_values::KeyLine;

/// One event of a port.
#[derive(Drop)]
pub enum Event {
    /// A request and its reply.
    Asked { request: Request, reply: Reply },
    /// A key line that was taken, or `None` at the end of the keys.
    Typed { key: Option<KeyLine> },
}
