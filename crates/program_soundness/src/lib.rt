//! Whether a program is sound, and otherwise why it is rejected: the least line with a cause, and
//! the first cause there.
//!
//! `refusal_of` promises what `program_model` defines for a program, and `any_refused_now` for a
//! line of immediate mode. `Listing` is a program as it is listed. `Tables` is a listing with its
//! FORs and NEXTs, which `loop_pairs` pairs, and its arrays in files. The contract of each of their
//! calls is the definition of what it looks up; `lowering` needs these too. `lines_in` and
//! `line_in` return the lines of a program and of immediate mode. `parts` and `calls` are visitors
//! of `statement_walk`, and collect what statements name and call.
#![tactic(auto)]

mod bodies;
mod calls;
mod definitions;
mod dims;
mod file_arrays;
mod kinds;
mod listing;
mod parts;
mod refusals;
mod tables;
mod texts;

pub use listing::Listing;
pub use parts::named_line;
pub use refusals::{any_refused_now, can_begin, refusal_of};
pub use tables::Tables;
pub use texts::{LineText, further, line_in, lines_in, statements_in};
