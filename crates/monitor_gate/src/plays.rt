//! The rule of the table, and what its seat learns at each step on it.

use crate::recorded::RecordedMonitor;
use crate::views::Knows;
use atomic_table::{Join, Play, Split, TableRule};
use monitor_core::Monitor;
use std::snapshot::Snapshot;

/// There is one history, and at most one seat has the turn.
pub(crate) struct OneTurn;

impl TableRule<Option<RecordedMonitor>, Knows, Snapshot<Monitor>> for OneTurn {
    ghost use Rattle.monitor_gate.specs.Turns.{Kept, first_view};

    ghost holds = { λ key. Kept key.value };

    ghost first = { λ key. first_view key.value };
}

/// The step that tries the turn.
pub(crate) struct TryTurn;

impl Play<Option<RecordedMonitor>, Knows> for TryTurn {
    ghost use Rattle.monitor_gate.specs.Turns.{tried};

    ghost then = { tried };
}

/// The step that returns the turn, with one entry more in the history.
pub(crate) struct EndWithEntry;

impl Play<Option<RecordedMonitor>, Knows> for EndWithEntry {
    ghost use Rattle.monitor_gate.specs.Turns.{ended_with_entry};

    ghost then = { ended_with_entry };
}

/// The step that returns the turn, with the history as it was found.
pub(crate) struct EndAsFound;

impl Play<Option<RecordedMonitor>, Knows> for EndAsFound {
    ghost use Rattle.monitor_gate.specs.Turns.{ended_as_found};

    ghost then = { ended_as_found };
}

/// Splits a job's seat off the spare seat, and joins it to it again.
pub(crate) struct ForJob;

impl Split<Knows> for ForJob {
    ghost use Rattle.monitor_gate.specs.Turns.{left_of_split, right_of_split};

    ghost left = { left_of_split };

    ghost right = { right_of_split };
}

impl Join<Knows> for ForJob {
    ghost use Rattle.monitor_gate.specs.Turns.{both_joined};
    ghost use Rattle.monitor_gate.specs.declared.views.Knows.TheVariants.{Spent};

    ghost both = { both_joined };

    ghost spent = { Spent };
}
