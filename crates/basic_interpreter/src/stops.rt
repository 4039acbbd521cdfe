//! The place at which CONT continues.

use basic_eval::Spot;
use program_model::Home;

/// A STOP: in a line, or in the body of a function while a line ran at top level.
#[derive(Clone, Copy)]
pub enum Stop {
    At(Spot),
    Inside(Home),
}
