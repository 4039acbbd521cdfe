//! The events of a port. Contracts read all of them; at run time it keeps only the last.

ghost use Rattle.std.specs.Prelude.{◌≡◌, [], ◌∷◌, ◌++◌};
ghost use Rattle.monitor_calls.specs.declared.events.Event.TheVariants.{Asked, Typed};

use basic_values::KeyLine;
use monitor_calls::{Reply, Request};
use std::marker::Model;
use std::snapshot::Snapshot;

/// The last event, as a ghost.
#[derive(Drop)]
pub(crate) enum Passed {
    Asked(Snapshot<Request>, Snapshot<Reply>),
    Typed(Snapshot<Option<KeyLine>>),
}

/// All events of a port, in order. It takes no memory.
#[cycle(events)]
#[derive(Drop)]
pub struct EventLog {
    last: Option<(Snapshot<EventLog>, Passed)>,
}

impl Model for EventLog {
    ghost use Rattle.std.specs.Coded.{codes};
    ghost use Rattle.std.specs.Prelude.{List, length};
    ghost use Rattle.std.proofs.Common.{arith, length-append};
    ghost use Rattle.monitor_calls.specs.declared.events.Event.{Event};
    ghost use Rattle.terminal_runner.specs.Logs.{log_up_to};

    ghost Value = { List Event };

    ghost coded = { Prim.hlevel codes };

    ghost view = { λ log. log_up_to log.last };

    ghost size = { length };

    ghost size_decreases = { λ log h. Prim.grind (arith, length-append) };
}

impl EventLog {
    /// Returns a log without events.
    pub fn new() -> EventLog
        ensures { result ≡ [] }
    {
        EventLog { last: None }
    }

    /// Appends a request with its reply.
    pub fn push_asked(&mut self, request: Snapshot<Request>, reply: &Reply)
        ensures { self.new ≡ self.old ++ Asked request.value reply.now ∷ [] }
    {
        let before = Snapshot::of(&*self);
        *self = EventLog {
            last: Some((before, Passed::Asked(request, Snapshot::of(reply)))),
        };
    }

    /// Appends a key line, or none for the end of the keys.
    pub fn push_typed(&mut self, key: &Option<KeyLine>)
        ensures { self.new ≡ self.old ++ Typed key.now ∷ [] }
    {
        let before = Snapshot::of(&*self);
        *self = EventLog {
            last: Some((before, Passed::Typed(Snapshot::of(key)))),
        };
    }
}
