//! Where each statement of a program is in its bytecode, and what instructions need to know of the
//! rest of the program.
//!
//! What instructions need is the trait `Lookups`: the contract of each of its calls is the
//! definition of `polish_code` or `program_model` for it. `Placement` implements it: a program in
//! the tables of `program_soundness`, with the place of each statement and the number of FORs
//! before it. `Nowhere` implements it without a program, because the number of instructions does
//! not depend on one. `load_item` and `store_item` are the instructions for array elements, in
//! memory or in a file; `counted`, `sum`, `add` and `next` compute numbers of instructions.
//!
//! `lowering` makes the instructions of statements. It also sums up, for `Placement::new`, where
//! statements begin and how many FORs are before them.
#![tactic(auto)]

mod elements;
mod lookups;
mod nowhere;
mod numbers;
mod placement;

pub use elements::{load_item, store_item};
pub use lookups::Lookups;
pub use nowhere::Nowhere;
pub use numbers::{add, counted, next, sum};
pub use placement::Placement;
