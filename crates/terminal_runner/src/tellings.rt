//! The notifications of a pacer. Contracts read all of them; at run time it keeps only the last.

ghost use Rattle.std.specs.Prelude.{◌≡◌, [], ◌∷◌, ◌++◌};

use monitor_gate::JobSeat;
use std::marker::Model;
use std::snapshot::Snapshot;

/// A notification of a job's call of that number, from 1.
#[derive(Clone, Copy)]
pub enum Telling {
    /// The job is about to make it.
    Before { call: u32 },
    /// The job has made it.
    After { call: u32 },
}

/// The earlier notifications, the last, and the seat as it was then.
type Last = (Snapshot<Tellings>, Telling, Snapshot<JobSeat>);

/// All notifications for one seat, in order, each with the seat as it was then. It takes no memory.
#[cycle(tellings)]
#[derive(Drop)]
pub struct Tellings {
    last: Option<Last>,
}

impl Model for Tellings {
    ghost use Rattle.std.specs.Coded.{codes};
    ghost use Rattle.monitor_core.specs.Coding.{coded_state};
    ghost use Rattle.std.specs.Prelude.{List, length};
    ghost use Rattle.std.proofs.Common.{arith, length-append};
    ghost use Rattle.terminal_runner.specs.Told.{Told};

    ghost Value = { List Told };

    ghost coded = { Prim.hlevel (codes, coded_state) };

    ghost use Rattle.terminal_runner.specs.Told.{all_up_to};

    ghost view = { λ tellings. all_up_to tellings.last };

    ghost size = { length };

    ghost size_decreases = { λ tellings h. Prim.grind (arith, length-append) };
}

impl Tellings {
    /// Returns no notifications.
    pub fn new() -> Tellings
        ensures { result ≡ [] }
    {
        Tellings { last: None }
    }

    /// Adds this notification for the seat, after the others.
    pub fn push(&mut self, telling: Telling, seat: &JobSeat)
        ensures { self.new ≡ self.old ++ (telling, seat.now) ∷ [] }
    {
        let before = Snapshot::of(&*self);
        *self = Tellings {
            last: Some((before, telling, Snapshot::of(seat))),
        };
    }
}
