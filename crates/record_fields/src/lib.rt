//! Record fields: the buffers of a job's channels, the parts of them that FIELD names, and what
//! LSET and RSET write there.
//!
//! `Buffers` promises which bytes each channel's buffer has, and how many blocks. `layout` says
//! which parts some widths give. `lend`, `write_part`, `lset_part` and `rset_part` say that a part
//! is a range of its buffer, and that a write replaces just that range. `shift_within` moves one
//! field onto another in place, and `place_under` gives the place of an array element. `laws` says
//! that what was written is read, that other parts stay, and that no two elements share a place.
#![tactic(auto)]

mod bounds;
mod buffers;
pub mod laws;
mod layouts;
mod parts;
mod sizes;
mod writing;

pub use bounds::{count, place_under};
pub use buffers::{BUFFER_BYTES, BUFFER_COUNT, Buffers};
pub use layouts::{layout, natural};
pub use parts::{Part, cut, lend, write_part};
pub use sizes::RecordSize;
pub use writing::{
    Side, fill, fill_part, lset, lset_part, rset, rset_part, set_part, shift_within, write_from,
};
