//! The parkers that a keyboard and the thread that fills its ring wake each other with.

use std::sync::atomic::AtomicBool;
use std::thread::Parker;

/// What a keyboard shares with the thread that fills its ring.
#[derive(Clone, Copy)]
pub struct Bells<'a> {
    /// The job of the keyboard parks on it while its ring is empty. It is unparked when keys came.
    pub keys: &'a Parker,
    /// It is unparked when the ring was found empty, since keys may wait for room.
    pub room: &'a Parker,
    /// Whether the run is lost. Nobody then waits for keys any more.
    pub lost: &'a AtomicBool,
}
