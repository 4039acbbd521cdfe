//! The port of a job: a seat at the monitor and the keyboard of a terminal.

ghost use Rattle.std.specs.Prelude.{◌≡◌, ◌≤◌, [], length};
ghost use Rattle.monitor_calls.specs.Pairs.{pairs_of};
ghost use Rattle.monitor_calls.specs.Typing.{Open, AreTyped, lines_in, keys_in};

use crate::event_log::EventLog;
use crate::keyboards::Keyboard;
use basic_values::{KeyLine, NoMemory};
use monitor_calls::{Port, Reply, Request};
use monitor_core::Seat;
use std::alloc::Global;
use std::snapshot::Snapshot;

/// A port that asks at a seat and takes key lines from a keyboard.
#[derive(Drop)]
pub struct TerminalPort<S: Seat, K: Keyboard> {
    seat: S,
    keyboard: K,
    log: EventLog,
    ghost asked: { pairs_of log ≡ S.pairs seat },
    ghost typed: { AreTyped (K.keys keyboard) log },
    ghost taken: { lines_in (K.keys keyboard) ≤ length (keys_in log) },
}

impl<S: Seat, K: Keyboard> TerminalPort<S, K> {
    /// Returns a port without events, over a seat and a keyboard that were not used.
    pub fn new(seat: S, keyboard: K) -> TerminalPort<S, K>
        requires asked { S.pairs seat ≡ [] }
        requires typed { K.keys keyboard ≡ Open }
        ensures seat { result.seat ≡ seat }
        ensures keyboard { result.keyboard ≡ keyboard }
        ensures log { result.log ≡ [] }
    {
        TerminalPort {
            seat,
            keyboard,
            log: EventLog::new(),
        }
    }

    /// Returns its seat and its keyboard.
    pub fn into_parts(self) -> (S, K)
        ensures seat { result.0 ≡ self.seat }
        ensures keyboard { result.1 ≡ self.keyboard }
    {
        let TerminalPort {
            seat,
            keyboard,
            log: _,
        } = self;
        (seat, keyboard)
    }
}

impl<S: Seat, K: Keyboard> Port for TerminalPort<S, K> {
    type Who = (S::Who, K::Which);

    ghost who = { λ p. (S.who p.seat, K.which p.keyboard) };

    ghost log = { λ p. p.log };

    fn ask(&mut self, alloc: Global, request: Request) -> Result<Reply, NoMemory> {
        let asked = Snapshot::of(&request);
        let result = self.seat.ask(alloc, request);
        // The result is looked at where it is: a reply may hold a whole page.
        if let Ok(reply) = &result {
            self.log.push_asked(asked, reply);
        }
        result
    }

    fn type_line(&mut self, alloc: Global) -> Result<Option<KeyLine>, NoMemory> {
        let key = self.keyboard.type_line(alloc)?;
        self.log.push_typed(&key);
        Ok(key)
    }

    // A screen is only read at the end of the run.
    fn show(&mut self, _screen: &[u8]) {}
}
