//! What the jobs of a run do.

ghost use Rattle.std.specs.Prelude.{ℕ, List, IfOk};
ghost use Rattle.monitor_calls.specs.declared.events.Event.{Event};
ghost use Rattle.monitor_calls.specs.Pairs.{Grew};

use basic_values::NoMemory;
use monitor_calls::{Port, Screen2};
use std::alloc::Global;

/// What a job of a run does, over whatever port it is given.
pub trait JobBody {
    /// Which events the job's port may have when the job ends, and which bytes its terminal was
    /// given then.
    ghost does: { Self → List Event → List ℕ → Type 0 };

    /// Runs the job to its end and returns what its terminal was given. If memory runs out, the job
    /// is over.
    fn run<P: Port>(self, alloc: Global, port: &mut P) -> Result<Screen2, NoMemory>
        ensures { IfOk result (λ screen. (events : List Event)
            × Grew P.who P.log port.old port.new events
            × does self events screen) };
}
