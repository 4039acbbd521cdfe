//! Key lines that are typed while the jobs run.
//!
//! Each terminal has a ring of keys. One thread fills it, and the terminal's job empties it
//! (`ring`). If the ring is full, keys wait at its input side, up to 1 MB, after which the terminal
//! is hung up (`type_ahead`). The job reads the ring through a keyboard (`keyboard`). A job that
//! finds its ring empty sleeps on a parker until keys come (`bells`). The proofs say which keys
//! come out of a ring and in which order, and not when. `laws` relates a job that reads a ring to a
//! job whose lines were all known before it began.
#![tactic(auto)]

mod bells;
mod keyboard;
mod laws;
mod outcomes;
mod ring;
mod type_ahead;

pub use bells::Bells;
pub use keyboard::LiveKeyboard;
pub use laws::live_is_batch;
pub use outcomes::Outcome;
pub use ring::{KeyRing, KeysIn, KeysOut, RING_KEYS};
pub use type_ahead::{TYPE_AHEAD_BYTES, TypeAhead, settle};
