//! The screen of a terminal as frames, which are written while its job runs.
//!
//! A job puts its frames into a ring, and one thread takes the frames out of the rings of all
//! terminals. `ScreenFrames` keeps what was shown so far, and each frame has only what is new
//! (`frames`). A job that finds its ring full sleeps on a parker (`bells`). `specs/Frames` defines
//! how frames are written.
#![tactic(auto)]

mod bells;
mod frames;

pub use bells::FrameBells;
pub use frames::{Frame, FrameRing, FramesIn, FramesOut, RING_FRAMES, ScreenFrames};
