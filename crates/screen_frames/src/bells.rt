//! The parkers that a job and the thread that writes its frames wake each other with.

use std::thread::Parker;

/// What a job shares with the thread that writes its frames.
#[derive(Clone, Copy)]
pub struct FrameBells<'a> {
    /// The thread that writes parks on it while all rings are empty. It is unparked for each frame.
    pub frames: &'a Parker,
    /// The job parks on it while its ring is full. It is unparked when frames were taken out.
    pub room: &'a Parker,
}
