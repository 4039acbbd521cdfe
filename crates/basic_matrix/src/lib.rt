//! MAT: arrays of numbers as matrices.
//!
//! A matrix is the elements of an array whose subscripts are all 1 or more. `specs/MatrixShapes`
//! says which bounds fit, `specs/MatrixValues` which number each element of a value is, and
//! `specs/MatrixActs` what a statement does to a memory.
//!
//! `touch` promises that an array that does not exist is made if the memory allows it. `assign`
//! promises that the target gets the numbers of the value, computed from the old memory, and that
//! nothing else changes; or error 55 exactly if the bounds do not fit. `row` says which numbers a
//! row has. `laws` says that elements with a subscript 0, other arrays and variables stay.
#![tactic(auto)]

mod acts;
mod grids;
pub mod laws;
mod shapes;
mod sources;
mod values;

pub use acts::{assign, row, touch};
pub use values::MatValue;
