//! Frames of a screen.

ghost use Rattle.std.specs.Prelude.{◌≡◌, ◌≤◌, [], ◌∷◌, ◌++◌, length, drop, IfOk, MatchBool};
ghost use Rattle.rtrb.specs.Ring.{sent, received, IsPair, SameProducer};
ghost use Rattle.screen_frames.specs.Frames.{put_together};
ghost use Rattle.screen_frames.specs.declared.frames.Frame.TheVariants as frame;

use crate::bells::FrameBells;
use basic_values::{NoMemory, Text2};
use rtrb::{Consumer, Producer, PushError, RingBuffer};
use std::alloc::Global;
use std::sync::Wait;

/// What is written of a terminal at one time.
#[derive(Drop)]
pub enum Frame {
    /// More of its screen, and the place in the history of the job's last answered call, or 0.
    Shows { place: u64, bytes: Text2 },
    /// Its session waits for a key line.
    Waits,
    /// Its session has ended.
    Ends,
}

/// The input side of a ring of frames.
pub type FramesIn = Producer<Frame>;

/// The output side of a ring of frames.
pub type FramesOut = Consumer<Frame>;

/// How many frames a ring has room for.
pub const RING_FRAMES: usize = 256;

/// Makes rings of frames.
pub struct FrameRing;

impl FrameRing {
    /// Returns the two sides of an empty ring.
    pub fn open(alloc: Global) -> Result<(FramesIn, FramesOut), NoMemory>
        ensures pair { IfOk result (λ sides. IsPair sides.0 sides.1) }
        ensures sent { IfOk result (λ sides. sent sides.0 ≡ []) }
        ensures received { IfOk result (λ sides. received sides.1 ≡ []) }
    {
        Ok(RingBuffer::new(alloc, RING_FRAMES)?)
    }
}

/// What a terminal showed so far, as frames in a ring.
#[derive(Drop)]
pub struct ScreenFrames {
    ring: FramesIn,
    shown: Vec<u8>,
    ghost framed: { put_together (sent ring) ≡ shown.items },
}

impl ScreenFrames {
    /// Returns the frames of a screen that showed nothing.
    pub fn new(alloc: Global, ring: FramesIn) -> ScreenFrames
        requires { sent ring ≡ [] }
        ensures ring { result.ring ≡ ring }
        ensures shown { result.shown.items ≡ [] }
    {
        ScreenFrames {
            ring,
            shown: Vec::new(alloc),
        }
    }

    /// Shows what the screen has more than it showed so far, as one frame, and returns whether the
    /// screen begins with what it showed. If it does not, nothing is shown. If memory runs out,
    /// nothing is shown either.
    pub fn show<R: Wait>(
        &mut self,
        rt: &R,
        alloc: Global,
        bells: FrameBells,
        place: u64,
        screen: &[u8],
    ) -> Result<bool, NoMemory>
        ensures ring { SameProducer self.old.ring self.new.ring }
        ensures shown { IfOk result (λ begins. MatchBool begins
            (self.new.shown.items ≡ screen.now) (self.new.shown.items ≡ self.old.shown.items)) }
    {
        if !screen.starts_with(self.shown.as_slice()) {
            return Ok(false);
        }
        let fresh = after(screen, self.shown.len());
        let bytes = Text2::from_vec(Vec::from_slice(alloc, fresh)?);
        self.shown.extend_from_slice(fresh)?;
        push_waiting(rt, bells, &mut self.ring, Frame::Shows { place, bytes });
        Ok(true)
    }

    /// Tells that the session waits for a key line.
    pub fn wait<R: Wait>(&mut self, rt: &R, bells: FrameBells)
        ensures ring { SameProducer self.old.ring self.new.ring }
        ensures told { sent self.new.ring ≡ sent self.old.ring ++ frame.Waits ∷ [] }
        ensures shown { self.new.shown.items ≡ self.old.shown.items }
    {
        push_waiting(rt, bells, &mut self.ring, Frame::Waits);
    }

    /// Tells that the session has ended.
    pub fn end<R: Wait>(&mut self, rt: &R, bells: FrameBells)
        ensures ring { SameProducer self.old.ring self.new.ring }
        ensures told { sent self.new.ring ≡ sent self.old.ring ++ frame.Ends ∷ [] }
        ensures shown { self.new.shown.items ≡ self.old.shown.items }
    {
        push_waiting(rt, bells, &mut self.ring, Frame::Ends);
    }

    /// Returns the ring. Its frames put together are what the screen showed.
    pub fn into_ring(self) -> FramesIn
        ensures ring { result ≡ self.ring }
        ensures framed { put_together (sent result) ≡ self.shown.items }
    {
        let ScreenFrames { ring, shown: _ } = self;
        ring
    }
}

/// Returns the bytes after the first `count`.
fn after(bytes: &[u8], count: usize) -> &[u8]
    requires { count ≤ length bytes.now }
    ensures { result.now ≡ drop count bytes.now }
{
    &bytes[count..]
}

/// Waits until the frame is in the ring.
fn push_waiting<R: Wait>(rt: &R, bells: FrameBells, ring: &mut FramesIn, frame: Frame)
    ensures ring { SameProducer ring.old ring.new }
    ensures sent { sent ring.new ≡ sent ring.old ++ frame ∷ [] }
{
    let mut frame = frame;
    for _ in rt.forever() {
        match ring.push(frame) {
            Ok(()) => {
                bells.frames.unpark();
                return;
            }
            Err(PushError::Full(back)) => frame = back,
        }
        bells.frames.unpark();
        bells.room.park(rt);
    }
    unreachable!()
}
