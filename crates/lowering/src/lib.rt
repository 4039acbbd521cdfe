//! The compiler: from the trees of a program to its bytecode, or to the reason why it has none.
//!
//! `lower` promises that the code is that of the definitions, exactly if the program is sound.
//! Otherwise the rejection is that of the least line with a cause, for the first cause there.
//! `lower_now` promises the same for a line of immediate mode.
//!
//! `program_soundness` decides whether a program is sound, and lists its text. Like `polish_code`,
//! this crate puts the instructions of each tree before others, so what runs last is emitted first.
//! Where instructions go is the trait `Sink`: `Emitted` stores them, and `Counted` counts them.
//! What a statement needs to know of the rest of the program is the trait `Lookups` of
//! `code_places`. Its `Placement` has the tables of a program, and where each statement is in the
//! code; `places_in` and `loops_in_front` sum that up. The number of instructions does not depend
//! on it, so counting uses `Nowhere`.
#![tactic(auto)]

mod channel_items;
mod control_items;
mod counted;
mod emitted;
mod expressions;
mod field_items;
mod file_items;
mod loops;
mod lowered;
mod matrix_items;
mod measured;
mod program;
mod simple;
mod sink;
mod statements;
mod whole;
mod words;

pub use lowered::{loops_in_line, loops_in_program, lower, lower_now};
