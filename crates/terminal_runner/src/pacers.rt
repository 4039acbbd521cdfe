//! Pacers, which are notified of each call of a job, so that tests can put calls in an order.

ghost use Rattle.std.specs.Prelude.{◌≡◌, List, [], ◌∷◌, ◌++◌};
ghost use Rattle.terminal_runner.specs.Told.{Told};

use crate::tellings::{Telling, Tellings};
use monitor_gate::JobSeat;

/// An observer of the calls of jobs. It returns nothing and changes nothing.
pub trait Pacer {
    /// What it keeps of one seat. No one else can add to it.
    type Kept: Drop + Send;

    /// All its notifications for that seat, in order, each with the seat as it was then.
    ghost tellings: { Self.Kept → List Told };

    /// Returns what it keeps for a seat of which it was not notified.
    fn seat(&self) -> Self::Kept
        ensures { tellings result ≡ [] };

    /// Notifies it that the seat's job is about to make its call of that number, from 1.
    fn before(&self, kept: &mut Self::Kept, seat: &JobSeat, call: u32)
        ensures { tellings kept.new ≡ tellings kept.old ++ (Telling.Before call, seat.now) ∷ [] };

    /// Notifies it that the seat's job has made its call of that number.
    fn after(&self, kept: &mut Self::Kept, seat: &JobSeat, call: u32)
        ensures { tellings kept.new ≡ tellings kept.old ++ (Telling.After call, seat.now) ∷ [] };
}

/// The pacer that does nothing.
#[derive(Clone, Copy)]
pub struct IdlePacer;

impl Pacer for IdlePacer {
    type Kept = Tellings;

    ghost tellings = { λ kept. kept };

    fn seat(&self) -> Tellings {
        Tellings::new()
    }

    fn before(&self, kept: &mut Tellings, seat: &JobSeat, call: u32) {
        kept.push(Telling::Before { call }, seat);
    }

    fn after(&self, kept: &mut Tellings, seat: &JobSeat, call: u32) {
        kept.push(Telling::After { call }, seat);
    }
}
