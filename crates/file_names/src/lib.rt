//! Names of files, as they are typed and printed.
//!
//! `specs/Names` says which texts are a file specification, and which file each names. `parse_spec`
//! finds exactly these, and rejects all others with error 8 or 2. `print` writes a name, and
//! `laws::printed_is_read` says that what it writes is read as the same name.
#![tactic(auto)]

pub mod laws;
mod printing;
mod spec;

pub use printing::print;
pub use spec::{Spec, parse_spec};
