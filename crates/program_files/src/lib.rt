//! Files of programs, over a port: the requests that the commands of a session make for them.
//!
//! `read_pages` and `write_pages` promise how the pages of a file are read and written on the
//! command level's channel. `kill_file` deletes a file, `show_catalog` writes what CAT shows,
//! `print_file` prints a file, and `assign_printer` and `deassign_printer` reserve the printer and
//! give it back. Each follows an interaction tree of `specs`, over any `Port`.
#![tactic(auto)]

mod catalogs;
mod channels;
mod listings;
mod programs;

pub use catalogs::show_catalog;
pub use channels::{CHANNEL, kill_file};
pub use listings::{assign_printer, deassign_printer, print_file};
pub use programs::{read_pages, write_pages};
