//! Frames of a screen that are put into a ring and taken out in one thread.

use crate::expects::expect;
use basic_values::NoMemory;
use screen_frames::{Frame, FrameBells, FrameRing, FramesOut, ScreenFrames};
use std::alloc::Global;
use std::sync::Wait;
use std::test::Fail;
use std::thread::Parker;

/// Shows more of a screen two times, and then that the session waits and ends. Returns whether
/// each screen began with what was shown, except for the last, which does not.
fn show_all<R: Wait>(
    rt: &R,
    alloc: Global,
    bells: FrameBells,
    screen: &mut ScreenFrames,
) -> Result<bool, NoMemory> {
    let first = screen.show(rt, alloc, bells, 1, b"READY")?;
    let second = screen.show(rt, alloc, bells, 2, b"READY\r\n")?;
    let other = screen.show(rt, alloc, bells, 3, b"OTHER")?;
    screen.wait(rt, bells);
    screen.end(rt, bells);
    Ok(first && second && !other)
}

/// Returns whether the next frame shows these bytes at this place.
fn next_shows(ring: &mut FramesOut, at: u64, want: &[u8]) -> bool {
    match ring.pop() {
        Ok(Frame::Shows { place, bytes }) => place == at && bytes.as_slice() == want,
        _ => false,
    }
}

/// Puts frames into a ring, and takes them out of it.
fn put_and_take<R: Wait>(rt: &R, alloc: Global) -> Result<(), Fail> {
    let (frames_in, frames_out) = FrameRing::open(alloc)?;
    let mut taken = frames_out;
    let mut screen = ScreenFrames::new(alloc, frames_in);
    let frames = Parker::new();
    let room = Parker::new();
    let bells = FrameBells {
        frames: &frames,
        room: &room,
    };
    let shown = show_all(rt, alloc, bells, &mut screen)?;
    expect(shown, "a screen was shown otherwise")?;
    let first = next_shows(&mut taken, 1, b"READY");
    let second = next_shows(&mut taken, 2, b"\r\n");
    expect(first && second, "a frame shows other bytes")?;
    expect(
        matches!(taken.pop(), Ok(Frame::Waits)),
        "the wait was not told",
    )?;
    expect(
        matches!(taken.pop(), Ok(Frame::Ends)),
        "the end was not told",
    )
}

#[test]
fn frames_come_out_in_order(rt: HostRuntime) -> Result<(), Fail> {
    put_and_take(&rt, rt.alloc())
}
