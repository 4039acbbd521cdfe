//! The gate, the seats of its jobs, and its spare seat.

ghost use Rattle.std.specs.Prelude.{◌≡◌, ◌<◌, IfOk, OnErr, length};
ghost use Rattle.monitor_model.specs.History.{after};
ghost use Rattle.monitor_gate.specs.Passes.{seat_value, spare_value, first_pass, after_split};
ghost use Rattle.monitor_gate.specs.Passes.{split_off, after_join};
ghost use Rattle.monitor_gate.specs.OneHistory.{Asked, OneHistory};

use crate::table::{GateTable, TableSeat};
use basic_values::NoMemory;
use monitor_calls::{Reply, Request, RunRecord};
use monitor_core::Monitor;
use std::alloc::Global;
use std::marker::Model;
use std::sync::Wait;
use std::sync::atomic::{AtomicBool, Ordering};

/// One monitor with the history of its answers, which many seats ask in turn.
#[derive(Drop)]
pub struct Gate {
    table: GateTable,
    is_shut: AtomicBool,
}

impl Model for Gate {
    ghost use Rattle.std.specs.Coded.{codes};
    ghost use Rattle.monitor_core.specs.Coding.{coded_state};
    ghost use Rattle.monitor_gate.specs.Passes.{GateValue, gate_value};

    ghost Value = { GateValue };

    ghost coded = { Prim.hlevel (codes, coded_state) };

    ghost view = { λ g. gate_value g.table.table.shared.table_id g.table.table.shared.key.value };
}

/// The right of one job to ask.
#[derive(Drop)]
pub struct JobSeat {
    job: u32,
    seat: TableSeat,
}

impl Model for JobSeat {
    ghost use Rattle.std.specs.Coded.{codes};
    ghost use Rattle.monitor_core.specs.Coding.{coded_state};
    ghost use Rattle.std.specs.Prelude.{◌≡◌};
    ghost use Rattle.monitor_gate.specs.Passes.{SeatValue, seat_value};
    ghost use Rattle.monitor_gate.specs.Turns.{pass_of, IsAsking};

    ghost Value = { SeatValue };

    ghost coded = { Prim.hlevel (codes, coded_state) };

    ghost view = { λ s. seat_value s.seat.table_id (pass_of s.seat.me.0) };

    ghost invariant = { λ s. IsAsking s.seat.me × (s.job ≡ (pass_of s.seat.me.0).job) };
}

/// The seat from which the seats of jobs are split off, and to which they are joined when they are
/// done.
#[derive(Drop)]
pub struct Spare {
    made: u32,
    jobs: u32,
    seat: TableSeat,
}

impl Model for Spare {
    ghost use Rattle.std.specs.Coded.{codes};
    ghost use Rattle.monitor_core.specs.Coding.{coded_state};
    ghost use Rattle.std.specs.Prelude.{◌≡◌, length};
    ghost use Rattle.monitor_gate.specs.Passes.{SpareValue, spare_value};
    ghost use Rattle.monitor_gate.specs.Turns.{spare_of, IsSpare};

    ghost Value = { SpareValue };

    ghost coded = { Prim.hlevel (codes, coded_state) };

    ghost view = { λ s. spare_value s.seat.table_id (spare_of s.seat.me.0) };

    ghost invariant = { λ s. IsSpare s.seat.me
        × (s.made ≡ (spare_of s.seat.me.0).made)
        × (s.jobs ≡ length (spare_of s.seat.me.0).opening.jobs) };
}

impl JobSeat {
    /// Returns its job's number, from 0.
    pub fn job(&self) -> u32
        ensures { result ≡ self.now.pass.job }
    {
        self.job
    }
}

impl Gate {
    /// Makes a gate over a monitor, and its spare seat, which has seen the empty history.
    pub fn new(alloc: Global, monitor: Monitor) -> Result<(Gate, Spare), NoMemory>
        ensures opening { IfOk result (λ made. made.0.opening ≡ monitor) }
        ensures spare { IfOk result (λ made.
            made.1 ≡ spare_value made.0.gate (first_pass monitor)) }
    {
        let jobs = monitor.job_count();
        let (table, seat) = GateTable::new(alloc, monitor)?;
        let spare = Spare {
            made: 0,
            jobs,
            seat,
        };
        let is_shut = AtomicBool::new(false);
        Ok((Gate { table, is_shut }, spare))
    }

    /// Splits off the seat of the next job, from 0. It takes no memory.
    pub fn split(&self, spare: &mut Spare) -> JobSeat
        requires own { spare.old.gate ≡ self.now.gate }
        requires room { spare.old.pass.made < length spare.old.pass.opening.jobs }
        ensures seat { result ≡ seat_value spare.old.gate (split_off spare.old.pass) }
        ensures spare { spare.new ≡ spare_value spare.old.gate (after_split spare.old.pass) }
    {
        let job = spare.made;
        let seat = self.table.split(&mut spare.seat);
        spare.made += 1;
        JobSeat { job, seat }
    }

    /// Turns every seat away from now on: each call that begins later returns at once that memory
    /// ran out. It is for a run in which a job is out of memory, since such a run is lost.
    pub fn shut(&self) {
        self.is_shut.store(true, Ordering::SeqCst);
    }

    /// Asks the monitor. It waits until no other seat has the turn.
    pub fn ask<R: Wait>(
        &self,
        rt: &R,
        alloc: Global,
        seat: &mut JobSeat,
        request: Request,
    ) -> Result<Reply, NoMemory>
        requires own { seat.old.gate ≡ self.now.gate }
        ensures asked { IfOk result (λ r. Asked seat.old.pass request r seat.new.pass) }
        ensures own { seat.new.gate ≡ seat.old.gate }
        // No entry was added, and the monitor is as it was.
        ensures memory { OnErr result (seat.new ≡ seat.old) }
    {
        if self.is_shut.load(Ordering::SeqCst) {
            return Err(NoMemory);
        }
        self.table.ask(rt, alloc, &mut seat.seat, seat.job, request)
    }

    /// Keeps the pass of a job that is done in the spare seat. It takes no memory.
    pub fn join(&self, spare: &mut Spare, seat: JobSeat)
        requires own { spare.old.gate ≡ self.now.gate }
        requires its_own { seat.gate ≡ spare.old.gate }
        ensures spare { spare.new
            ≡ spare_value spare.old.gate (after_join spare.old.pass seat.pass) }
    {
        let JobSeat { job: _, seat } = seat;
        self.table.join(&mut spare.seat, seat);
    }

    /// Returns the history, and the monitor as it is after it, once every seat was joined. It takes
    /// no memory.
    pub fn close(self, spare: Spare) -> (RunRecord, Monitor)
        requires own { spare.gate ≡ self.gate }
        requires all { length spare.pass.ended ≡ spare.pass.made }
        ensures opening { spare.pass.opening ≡ self.opening }
        ensures history { OneHistory spare.pass result.0 }
        ensures monitor { result.1 ≡ after self.opening result.0 }
    {
        let Gate { table, is_shut: _ } = self;
        let Spare {
            made: _,
            jobs: _,
            seat,
        } = spare;
        table.close(seat)
    }
}
