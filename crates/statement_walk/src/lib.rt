//! The parts of a statement: the statements without others inside, the expressions and the FORs.
//!
//! `visit_parts` is the only walk over a statement: it shows each part once to a `Visitor`.
//! Whatever counts FORs, or looks for calls, lines and arrays, is a visitor. `proofs/PartLaws`
//! proves that the parts of the walk are those that `program_model` defines. Only `walk` has an arm
//! for each form of statement.
#![tactic(auto)]

mod parts;
mod walk;

pub use parts::{Expression, Part, Simple, Visitor};
pub use walk::{own_loops, visit_clause, visit_parts};
