//! A seat of one job at a monitor of its own, with no thread.

ghost use Rattle.std.specs.Prelude.{◌≡◌, ◌<◌, [], ◌∷◌, ◌++◌, length, IfOk, OnErr};
ghost use Rattle.monitor_calls.specs.Pairs.{Grew};
ghost use Rattle.monitor_calls.specs.Proper.{Proper};
ghost use Rattle.monitor_model.specs.Answer.{reply};
ghost use Rattle.monitor_model.specs.History.{entry_for, after, Legal, part_of, AllOf};
ghost use Rattle.monitor_core.specs.Plain.{unasked, asked};

use crate::monitor::Monitor;
use crate::opening::Opening;
use crate::seats::Seat;
use basic_values::NoMemory;
use monitor_calls::{Entry, Reply, Request, RunRecord, blank_page};
use std::alloc::Global;
use std::marker::Model;

/// A seat of one job at a monitor of its own. It keeps its calls.
#[derive(Drop)]
pub struct PlainSeat {
    opening: Opening,
    monitor: Monitor,
    job: u32,
    history: Vec<Entry>,
}

impl Model for PlainSeat {
    ghost use Rattle.monitor_core.specs.Plain.{Plain, IsKept};
    ghost use Rattle.std.specs.Coded.{codes};
    ghost use Rattle.monitor_core.specs.Coding.{coded_state};

    ghost Value = { Plain };

    ghost coded = { Prim.hlevel (codes, coded_state) };

    ghost view = { λ p. record {
      opening = p.opening.state;
      job = p.job;
      history = p.history.items;
    } };

    ghost invariant = { λ p. IsKept (record {
      opening = p.opening.state;
      job = p.job;
      history = p.history.items;
    }) p.monitor };
}

impl PlainSeat {
    /// Returns the seat of this job, from 0, at a monitor of its own. It takes no memory.
    pub fn new(alloc: Global, monitor: Monitor, job: u32) -> PlainSeat
        requires { job < length monitor.jobs }
        ensures opening { result.opening ≡ monitor }
        ensures job { result.job ≡ job }
        ensures history { result.history ≡ [] }
    {
        PlainSeat {
            opening: Opening::of(&monitor),
            monitor,
            job,
            history: Vec::new(alloc),
        }
    }

    /// Returns its calls. It takes no memory.
    pub fn close(self) -> RunRecord
        ensures history { result ≡ self.history }
        ensures legal { Legal self.opening result }
        ensures proper { Proper result }
        ensures all_of { AllOf self.job result }
        ensures log { part_of self.job result ≡ asked self }
    {
        RunRecord::from_vec(self.history)
    }
}

impl Seat for PlainSeat {
    type Who = PlainSeat;

    ghost who = { unasked };

    ghost pairs = { asked };

    fn ask(&mut self, alloc: Global, request: Request) -> Result<Reply, NoMemory>
        ensures ok { IfOk result (λ r. Grew unasked asked self.old self.new ((request, r) ∷ [])) }
        ensures memory { OnErr result (Grew unasked asked self.old self.new []) }
        ensures reply { let state = after self.old.opening self.old.history in
            IfOk result (λ r. r ≡ reply state self.old.job request) }
        ensures history { IfOk result (λ r. let entry = entry_for self.old.job request r in
            self.new.history ≡ self.old.history ++ entry ∷ []) }
        ensures unchanged { OnErr result (self.new ≡ self.old) }
    {
        // All memory is taken first, so that nothing was asked if memory runs out.
        let room = self.monitor.room_for_copy(alloc, self.job, &request)?;
        let page = blank_page(alloc, &request)?;
        self.history.reserve(1)?;
        let reply = self.monitor.answer(self.job, &request, page)?;
        self.history
            .push(Entry::new(self.job, request, reply.again(room)))?;
        Ok(reply)
    }
}
