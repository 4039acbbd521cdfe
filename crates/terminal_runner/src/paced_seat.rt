//! A job's seat at a gate, with the pacer.

ghost use Rattle.std.specs.Prelude.{◌≡◌, ◌+◌, [], ◌∷◌, ◌++◌, length, IfOk, OnErr};
ghost use Rattle.monitor_calls.specs.Pairs.{Grew};
ghost use Rattle.terminal_runner.specs.Paced.{call_number, told_around, WasTold};

use crate::pacers::Pacer;
use basic_values::NoMemory;
use monitor_calls::{Reply, Request};
use monitor_core::Seat;
use monitor_gate::{Gate, JobSeat};
use std::alloc::Global;
use std::sync::Wait;

/// A job's seat at a gate, with a pacer that is notified before and after each call.
#[derive(Drop)]
pub(crate) struct PacedSeat<'a, R: Wait, P: Pacer> {
    rt: &'a R,
    gate: &'a Gate,
    pacer: &'a P,
    seat: JobSeat,
    /// The notifications of the pacer for this seat.
    told: P::Kept,
    /// How many calls it has made; the count stays at the largest number of 32 bits.
    calls: u32,
    ghost own: { seat.gate ≡ gate.now.gate },
    ghost paced: { ∥ WasTold seat.pass.job (length seat.pass.mine) calls (P.tellings told) ∥₁ },
}

impl<'a, R: Wait, P: Pacer> PacedSeat<'a, R, P> {
    pub(crate) fn new(rt: &'a R, gate: &'a Gate, pacer: &'a P, seat: JobSeat) -> PacedSeat<'a, R, P>
        requires own { seat.gate ≡ gate.now.gate }
        requires fresh { seat.pass.mine ≡ [] }
        ensures seat { result.seat ≡ seat }
        ensures calls { result.calls ≡ 0 }
        ensures told { P.tellings result.told ≡ [] }
    {
        PacedSeat {
            rt,
            gate,
            pacer,
            seat,
            told: pacer.seat(),
            calls: 0,
        }
    }

    /// Returns the seat at the gate, and the notifications of the pacer for it.
    pub(crate) fn into_parts(self) -> (JobSeat, P::Kept)
        ensures seat { result.0 ≡ self.entry.seat }
        ensures told { result.1 ≡ self.entry.told }
    {
        let PacedSeat {
            rt: _,
            gate: _,
            pacer: _,
            seat,
            told,
            calls: _,
        } = self;
        (seat, told)
    }
}

impl<'a, R: Wait, P: Pacer> Seat for PacedSeat<'a, R, P> {
    ghost use Rattle.terminal_runner.specs.Seats.{unasked, asked};

    type Who = JobSeat;

    ghost who = { λ s. unasked s.seat };

    ghost pairs = { λ s. asked s.seat };

    fn ask(&mut self, alloc: Global, request: Request) -> Result<Reply, NoMemory>
        ensures ok { IfOk result (λ reply.
            Grew unasked asked self.old.seat self.new.seat ((request, reply) ∷ [])) }
        ensures memory { OnErr result (Grew unasked asked self.old.seat self.new.seat []) }
        ensures calls { self.new.calls ≡ call_number (self.old.calls + 1) }
        // Whatever the answer is.
        ensures told { P.tellings self.new.told ≡ P.tellings self.old.told
            ++ told_around self.new.calls self.old.seat self.new.seat }
    {
        self.calls = self.calls.saturating_add(1);
        self.pacer.before(&mut self.told, &self.seat, self.calls);
        let reply = self.gate.ask(self.rt, alloc, &mut self.seat, request);
        self.pacer.after(&mut self.told, &self.seat, self.calls);
        reply
    }
}
