//! The table under a gate, and each call of a seat at it.
//!
//! A seat that finds the turn free takes it. It takes the monitor out of the slot, has it answer,
//! puts it back and gives the turn back. While one has the turn, the others yield and try again.

ghost use Rattle.std.specs.Prelude.{◌≡◌, ◌<◌, [], IfOk, OnErr, length};
ghost use Rattle.monitor_model.specs.History.{after};
ghost use Rattle.monitor_gate.specs.declared.views.Knows.TheVariants.{Spare, Asks};
ghost use Rattle.monitor_gate.specs.Passes.{first_pass, after_split, split_off, after_join};
ghost use Rattle.monitor_gate.specs.OneHistory.{Asked, OneHistory};
ghost use Rattle.monitor_gate.specs.Turns.{pass_of, spare_of, HasTaken, IsAsking, IsSpare};

use crate::plays::{EndAsFound, EndWithEntry, ForJob, OneTurn, TryTurn};
use crate::recorded::RecordedMonitor;
use crate::views::Knows;
use atomic_table::{Refused, Seat, Table};
use basic_values::NoMemory;
use monitor_calls::{Reply, Request, RunRecord};
use monitor_core::Monitor;
use std::alloc::Global;
use std::snapshot::Snapshot;
use std::sync::Wait;
use std::thread;

/// The word that is 1 while a seat has the turn.
const TURN: usize = 0;

/// The slot of the monitor.
const MONITOR: usize = 0;

/// A seat at the table. It has no bytes.
pub(crate) type TableSeat = Seat<Option<RecordedMonitor>, Knows>;

/// The table, of one word and one slot.
#[derive(Drop)]
pub(crate) struct GateTable {
    table: Table<Option<RecordedMonitor>, Knows, Snapshot<Monitor>, OneTurn, Global>,
    ghost sized: { (table.shared.table_id.words ≡ 1) × (table.shared.table_id.slots ≡ 1) },
}

impl GateTable {
    /// Makes a table with the monitor in its slot, and its spare seat.
    pub(crate) fn new(alloc: Global, monitor: Monitor) -> Result<(GateTable, TableSeat), NoMemory>
        ensures opening { IfOk result (λ made. made.0.table.shared.key.value ≡ monitor) }
        ensures own { IfOk result (λ made. made.1.table_id ≡ made.0.table.shared.table_id) }
        ensures spare { IfOk result (λ made. made.1.me ≡ (Spare (first_pass monitor), [])) }
    {
        let key = Snapshot::of(&monitor);
        let mut slots = Vec::with_capacity(alloc, 1)?;
        slots.push_reserved(Some(RecordedMonitor {
            monitor,
            history: Vec::new(alloc),
        }));
        match Table::new(alloc, &[0], slots, &key) {
            Ok((table, seat)) => Ok((GateTable { table }, seat)),
            Err(Refused { slots: _ }) => Err(NoMemory),
        }
    }

    /// Waits for the turn, and takes the monitor out.
    fn take<R: Wait>(&self, rt: &R, seat: &mut TableSeat) -> RecordedMonitor
        requires own { seat.old.table_id ≡ self.now.table.shared.table_id }
        requires asks { IsAsking seat.old.me }
        ensures own { seat.new.table_id ≡ seat.old.table_id }
        ensures taken { HasTaken (pass_of seat.old.me.0) result seat.new.me }
    {
        let shared = &self.table.shared;
        for _ in rt.forever() {
            if shared.swap::<TryTurn>(seat, TURN, 1) == 0 {
                return shared.exchange(seat, MONITOR, None).unwrap();
            }
            thread::yield_now();
        }
        unreachable!()
    }

    /// Has the monitor answer a call, in a turn of its own.
    pub(crate) fn ask<R: Wait>(
        &self,
        rt: &R,
        alloc: Global,
        seat: &mut TableSeat,
        job: u32,
        request: Request,
    ) -> Result<Reply, NoMemory>
        requires own { seat.old.table_id ≡ self.now.table.shared.table_id }
        requires asks { IsAsking seat.old.me }
        requires job { job ≡ (pass_of seat.old.me.0).job }
        ensures own { seat.new.table_id ≡ seat.old.table_id }
        ensures asks { IsAsking seat.new.me }
        ensures job { (pass_of seat.new.me.0).job ≡ (pass_of seat.old.me.0).job }
        ensures ok { IfOk result (λ r.
            Asked (pass_of seat.old.me.0) request r (pass_of seat.new.me.0)) }
        ensures memory { OnErr result (seat.new.me ≡ seat.old.me) }
    {
        let shared = &self.table.shared;
        let mut kept = self.take(rt, seat);
        match kept.answer(alloc, job, request) {
            Ok(reply) => {
                drop(shared.exchange(seat, MONITOR, Some(kept)));
                shared.swap::<EndWithEntry>(seat, TURN, 0);
                Ok(reply)
            }
            Err(error) => {
                drop(shared.exchange(seat, MONITOR, Some(kept)));
                shared.swap::<EndAsFound>(seat, TURN, 0);
                Err(error)
            }
        }
    }

    /// Splits off the seat of the next job.
    pub(crate) fn split(&self, spare: &mut TableSeat) -> TableSeat
        requires own { spare.old.table_id ≡ self.now.table.shared.table_id }
        requires spare { IsSpare spare.old.me }
        requires room { (spare_of spare.old.me.0).made
            < length (spare_of spare.old.me.0).opening.jobs }
        ensures own { spare.new.table_id ≡ spare.old.table_id }
        ensures spare { spare.new.me ≡ (Spare (after_split (spare_of spare.old.me.0)), []) }
        ensures its_own { result.table_id ≡ spare.old.table_id }
        ensures seat { result.me ≡ (Asks (split_off (spare_of spare.old.me.0)), []) }
    {
        self.table.shared.split_seat::<ForJob>(spare)
    }

    /// Keeps the pass of a seat in the spare one.
    pub(crate) fn join(&self, spare: &mut TableSeat, seat: TableSeat)
        requires own { spare.old.table_id ≡ self.now.table.shared.table_id }
        requires its_own { seat.table_id ≡ spare.old.table_id }
        requires spare { IsSpare spare.old.me }
        requires asks { IsAsking seat.me }
        ensures own { spare.new.table_id ≡ spare.old.table_id }
        ensures spare { spare.new.me
            ≡ (Spare (after_join (spare_of spare.old.me.0) (pass_of seat.me.0)), []) }
    {
        self.table.shared.join_seat::<ForJob>(spare, seat);
    }

    /// Ends the table, and returns what the monitor answered, and the monitor.
    pub(crate) fn close(self, spare: TableSeat) -> (RunRecord, Monitor)
        requires own { spare.table_id ≡ self.table.shared.table_id }
        requires spare { IsSpare spare.me }
        requires all { length (spare_of spare.me.0).ended ≡ (spare_of spare.me.0).made }
        ensures opening { (spare_of spare.me.0).opening ≡ self.table.shared.key.value }
        ensures history { OneHistory (spare_of spare.me.0) result.0 }
        ensures monitor { result.1 ≡ after self.table.shared.key.value result.0 }
    {
        let GateTable { table } = self;
        let mut closed = table.close_with(spare);
        let slot = closed.take(MONITOR);
        closed.free();
        let kept = slot.unwrap();
        (RunRecord::from_vec(kept.history), kept.monitor)
    }
}
