//! PRINT USING: what is written of values by a format.
//!
//! `specs/Formats` says which list of fields and bytes a format is, `specs/Fields` how each field
//! is spelled and what it writes, and `specs/Using` how the fields take the values in order.
//! `format_values` promises exactly these bytes, or error 50 exactly if no field takes a value.
//! `format_line` promises the same, and the end of a line. `laws` says that a format is read in one
//! way only.
#![tactic(auto)]

mod fields;
mod formats;
pub mod laws;
mod printing;
mod values;

pub use printing::{format_line, format_values};
pub use values::Using;
