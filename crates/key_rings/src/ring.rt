//! The ring of a terminal's keys: lines, and none for the end of the keys.

ghost use Rattle.std.specs.Prelude.{◌≡◌, [], IfOk};
ghost use Rattle.rtrb.specs.Ring.{sent, received, IsPair};
ghost use Rattle.key_rings.specs.Rings.{NotOver};

use basic_values::{KeyLine, NoMemory};
use rtrb::{Consumer, Producer, Protocol, RingBuffer};
use std::alloc::Global;

/// Nothing comes after the end of the keys.
#[derive(Clone, Copy)]
pub struct UpToEnd;

impl Protocol<Option<KeyLine>> for UpToEnd {
    ghost allows = { λ before key. NotOver before };
}

/// The input side of a ring.
pub type KeysIn = Producer<Option<KeyLine>, Global, UpToEnd>;

/// The output side of a ring.
pub type KeysOut = Consumer<Option<KeyLine>, Global, UpToEnd>;

/// How many keys a ring has room for.
pub const RING_KEYS: usize = 256;

/// Makes rings of keys.
pub struct KeyRing;

impl KeyRing {
    /// Returns the two sides of an empty ring.
    pub fn open(alloc: Global) -> Result<(KeysIn, KeysOut), NoMemory>
        ensures pair { IfOk result (λ sides. IsPair sides.0 sides.1) }
        ensures sent { IfOk result (λ sides. sent sides.0 ≡ []) }
        ensures received { IfOk result (λ sides. received sides.1 ≡ []) }
    {
        Ok(RingBuffer::with_protocol::<Global, UpToEnd>(alloc, RING_KEYS)?)
    }
}
