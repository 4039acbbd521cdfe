//! The program between its two ends: time sharing after RSTS/E, with BASIC-PLUS jobs.
//!
//! `rsts_main` has the program's theorem: its one clause is `Does` of `specs/Headline`. `runs` runs
//! the terminals of a deck, or replays their entries. `writings` makes what is written of a run,
//! and `inputs` cuts the input of a replay. `systems`, `drills` and `replays` put these together,
//! and `outcomes` gives the status. The crate depends on `program_words` for what is asked,
//! `deck_reader` for decks, `history_reader` for histories, and `report_texts` for what is written.
//! It depends on `command_level` for the session of a terminal, `terminal_runner` for the threads,
//! `history_replay` for a run without them, `print_spool` for print jobs, and `rsts_io` for the
//! ends. `deck_model`, `job_model` and `monitor_model` define what they mean.
#![tactic(auto)]

mod drills;
mod inputs;
mod outcomes;
mod replays;
mod runs;
mod systems;
mod top;
mod writings;

pub use outcomes::{Drill, Failure, HistoryCause, HistoryFault, Outcome};
pub use replays::replay_system;
pub use systems::check_system;
pub use top::{Rest, Step, begin, exit_code, finish, rsts_main};
