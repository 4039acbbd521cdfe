//! The input side of a terminal's keys: its ring, and the keys that wait for room in it.

ghost use Rattle.std.specs.Prelude.{◌≡◌, ◌≤◌, ◌<◌, ◌+◌, ◌↔◌, true, List, Some};
ghost use Rattle.std.specs.Prelude.{[], ◌∷◌, ◌++◌, IfOk, OnErr, if◌then◌else◌};
ghost use Rattle.rtrb.specs.Ring.{sent, received, IsPair, SameProducer};
ghost use Rattle.key_rings.specs.Rings.{Key, is_over, ends_once, key_weight, weight, After};
ghost use Rattle.key_rings.specs.declared.outcomes.Outcome.TheVariants.{HungUp, WasOver};

use crate::bells::Bells;
use crate::outcomes::Outcome;
use crate::ring::{KeysIn, KeysOut};
use basic_values::{KeyLine, NoMemory};
use std::alloc::Global;
use std::collections::VecDeque;

/// How many bytes may wait for room in the ring of one terminal. A line counts for 24 bytes more
/// than it has.
pub const TYPE_AHEAD_BYTES: usize = 1_048_576;

/// The keys that were typed at a terminal: those in its ring, and those that wait after them.
#[derive(Drop)]
pub struct TypeAhead {
    ring: KeysIn,
    waiting: VecDeque<Option<KeyLine>>,
    bytes: usize,
    over: bool,
    ghost once: { ends_once (sent ring ++ waiting.items) ≡ true },
    ghost over_is: { over ≡ is_over (sent ring ++ waiting.items) },
    ghost weighs: { bytes ≡ weight waiting.items },
    ghost within: { bytes ≤ 1048576 },
}

impl TypeAhead {
    /// Returns the input side of a ring into which nothing was typed.
    pub fn new(alloc: Global, ring: KeysIn) -> TypeAhead
        requires { sent ring ≡ [] }
        ensures ring { result.ring ≡ ring }
        ensures none { sent result.ring ++ result.waiting.items ≡ [] }
    {
        TypeAhead {
            ring,
            waiting: VecDeque::new(alloc),
            bytes: 0,
            over: false,
        }
    }

    /// Types a line. If more than 1 MB would wait, the terminal is hung up instead. If memory runs
    /// out, nothing was typed.
    pub fn type_line(&mut self, line: KeyLine) -> Result<Outcome, NoMemory>
        ensures ring { self.new.ring ≡ self.old.ring }
        ensures typed { IfOk result (λ outcome. After outcome line
            (sent self.old.ring ++ self.old.waiting.items)
            (sent self.new.ring ++ self.new.waiting.items)) }
        ensures over { IfOk result (λ outcome. (outcome ≡ WasOver)
            ↔ (is_over (sent self.old.ring ++ self.old.waiting.items) ≡ true)) }
        ensures hung_up { IfOk result (λ outcome. outcome ≡ HungUp
            → 1048576 < weight self.old.waiting.items + key_weight (Some line)) }
        ensures memory { OnErr result (self.new.waiting.items ≡ self.old.waiting.items) }
    {
        if self.over {
            return Ok(Outcome::WasOver);
        }
        let bytes = self.bytes + 24 + line.as_bytes().len();
        if bytes > TYPE_AHEAD_BYTES {
            self.hang_up()?;
            return Ok(Outcome::HungUp);
        }
        self.waiting.push_back(Some(line))?;
        self.bytes = bytes;
        Ok(Outcome::InOrder)
    }

    /// Hangs the terminal up, unless it was hung up before. If memory runs out, nothing was done.
    pub fn hang_up(&mut self) -> Result<(), NoMemory>
        ensures ring { self.new.ring ≡ self.old.ring }
        ensures typed { IfOk result (λ _. sent self.new.ring ++ self.new.waiting.items
            ≡ (if is_over (sent self.old.ring ++ self.old.waiting.items)
            then sent self.old.ring ++ self.old.waiting.items
            else (sent self.old.ring ++ self.old.waiting.items) ++ None ∷ [])) }
        ensures memory { OnErr result (self.new.waiting.items ≡ self.old.waiting.items) }
    {
        if !self.over {
            self.waiting.push_back(None)?;
            self.over = true;
        }
        Ok(())
    }

    /// Puts as many of the keys that wait into the ring as it has room for, and wakes the
    /// terminal's job if there are any.
    pub fn fill(&mut self, bells: Bells)
        ensures ring { SameProducer self.old.ring self.new.ring }
        ensures typed { sent self.new.ring ++ self.new.waiting.items
            ≡ sent self.old.ring ++ self.old.waiting.items }
    {
        if move_keys(&mut self.ring, &mut self.waiting, &mut self.bytes) {
            bells.keys.unpark();
        }
    }
}

/// Moves keys into the ring while it has room, and returns whether there were any.
fn move_keys(ring: &mut KeysIn, waiting: &mut VecDeque<Option<KeyLine>>, bytes: &mut usize) -> bool
    requires once { ends_once (sent ring.old ++ waiting.old.items) ≡ true }
    requires weighs { bytes.old ≡ weight waiting.old.items }
    ensures ring { SameProducer ring.old ring.new }
    ensures typed { sent ring.new ++ waiting.new.items ≡ sent ring.old ++ waiting.old.items }
    ensures weighs { bytes.new ≡ weight waiting.new.items }
    ensures fewer { bytes.new ≤ bytes.old }
{
    let mut moved = false;
    while !ring.is_full() {
        let Some(key) = waiting.pop_front() else {
            return moved;
        };
        *bytes -= key_bytes(&key);
        ring.push_reserved(key);
        moved = true;
    }
    moved
}

/// Returns how many bytes a key counts for while it waits.
fn key_bytes(key: &Option<KeyLine>) -> usize
    ensures { result ≡ key_weight key.now }
{
    match key {
        Some(line) => 24 + line.as_bytes().len(),
        None => 0,
    }
}

/// Looks at both sides of a ring in one thread: the keys that came out are the first of those that
/// were typed.
pub fn settle(typed: &mut TypeAhead, taken: &mut KeysOut)
    requires { IsPair typed.old.ring taken.old }
    ensures ring { SameProducer typed.old.ring typed.new.ring }
    ensures typed { sent typed.new.ring ++ typed.new.waiting.items
        ≡ sent typed.old.ring ++ typed.old.waiting.items }
    ensures taken { received taken.new ≡ received taken.old }
    ensures first { (left : List Key)
        × (received taken.new ++ left ≡ sent typed.new.ring ++ typed.new.waiting.items) }
{
    taken.slots_beside(&mut typed.ring);
}
