//! Seats: who answers the requests of one job.

ghost use Rattle.std.specs.Prelude.{◌≡◌, List, [], ◌∷◌, IfOk, OnErr};
ghost use Rattle.monitor_calls.specs.Pairs.{Pair, Grew};

use basic_values::NoMemory;
use monitor_calls::{Reply, Request};
use std::alloc::Global;

/// One job's way to the monitor.
pub trait Seat {
    /// Which seat it is. No call changes it.
    type Who;

    ghost who: { Self → Self.Who };

    /// The requests with their replies so far, in order.
    ghost pairs: { Self → List Pair };

    /// Makes a request and waits for the reply. If memory runs out, nothing was asked.
    fn ask(&mut self, alloc: Global, request: Request) -> Result<Reply, NoMemory>
        ensures ok { IfOk result (λ reply.
            Grew who pairs self.old self.new ((request, reply) ∷ [])) }
        ensures memory { OnErr result (Grew who pairs self.old self.new []) };
}
