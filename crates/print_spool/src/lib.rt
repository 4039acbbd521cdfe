//! The line printer: who has it, and what is printed.
//!
//! The crate depends on `monitor_model`, whose `Printing` says who has the printer and what each
//! call changes. Its `Listings` says what of a history is one print job. Each call of `Printer` is
//! proved to be refused exactly if its table entry says so, to leave what its definition says, and
//! to take no memory. `printed` is proved to write the print jobs of the history.
#![tactic(auto)]

mod listings;
mod printer;

pub use listings::printed;
pub use printer::Printer;
