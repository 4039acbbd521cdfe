//! A volume as a deck of version 3, from which a next run goes on.
//!
//! `push_volume` promises exactly the bytes of `deck_model/specs/DiskTexts`. The law
//! `deck_model::laws::round_trip` says that they spell the deck of the volume. `volumes` writes the
//! lines of accounts and terminals, `files` those of files, and `contents` tells a file that is a
//! text from any other. It takes time in proportion to the bytes of the disk.
#![tactic(auto)]

mod contents;
mod files;
mod volumes;

pub use volumes::push_volume;
