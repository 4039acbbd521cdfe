//! The trap of a job's errors: what ON ERROR sets, what an error does there, and what RESUME
//! leaves.
//!
//! `raise`, `resume` and `on_error` promise the whole rule, one equation each.
#![tactic(auto)]

pub mod laws;
mod trap;

pub use trap::{Raised, Trap};
