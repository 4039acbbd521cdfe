//! A keyboard whose keys come out of a ring.

ghost use Rattle.std.specs.Prelude.{◌≡◌, true, [], ◌∷◌, ◌++◌, IfOk, OnErr};
ghost use Rattle.monitor_calls.specs.Typing.{Open};
ghost use Rattle.rtrb.specs.Ring.{received, SameConsumer};
ghost use Rattle.key_rings.specs.Rings.{NotOver, typed_by, is_over};

use crate::bells::Bells;
use crate::ring::KeysOut;
use basic_values::{KeyLine, NoMemory};
use std::alloc::Global;
use std::snapshot::Snapshot;
use std::sync::Wait;
use std::sync::atomic::Ordering;
use terminal_runner::Keyboard;

/// The keyboard of a terminal while lines are typed.
#[derive(Drop)]
pub struct LiveKeyboard<'a, R: Wait> {
    rt: &'a R,
    bells: Bells<'a>,
    /// The ring as it was at first.
    first: Snapshot<KeysOut>,
    ring: KeysOut,
    over: bool,
    ghost same: { SameConsumer first.value ring },
    ghost over_is: { over ≡ true → is_over (received ring) ≡ true },
}

impl<'a, R: Wait> LiveKeyboard<'a, R> {
    /// Returns a keyboard over a ring out of which nothing came yet.
    pub fn new(rt: &'a R, bells: Bells<'a>, ring: KeysOut) -> LiveKeyboard<'a, R>
        requires { received ring ≡ [] }
        ensures first { result.first.value ≡ ring }
        ensures ring { result.ring ≡ ring }
        ensures none { typed_by (received result.ring) ≡ Open }
    {
        let first = Snapshot::of(&ring);
        LiveKeyboard {
            rt,
            bells,
            first,
            ring,
            over: false,
        }
    }

    /// Returns the ring.
    pub fn into_ring(self) -> KeysOut
        ensures { result ≡ self.entry.ring }
    {
        let LiveKeyboard {
            rt: _,
            bells: _,
            first: _,
            ring,
            over: _,
        } = self;
        ring
    }
}

impl<'a, R: Wait> Keyboard for LiveKeyboard<'a, R> {
    type Which = KeysOut;

    ghost which = { λ k. k.first.value };

    ghost keys = { λ k. typed_by (received k.ring) };

    fn type_line(&mut self, _alloc: Global) -> Result<Option<KeyLine>, NoMemory> {
        if self.over {
            return Ok(None);
        }
        let key = pop_waiting(self.rt, self.bells, &mut self.ring)?;
        self.over = key.is_none();
        Ok(key)
    }
}

/// Waits for the next line, or the end of the keys. If the run is lost it returns at once.
fn pop_waiting<R: Wait>(
    rt: &R,
    bells: Bells,
    ring: &mut KeysOut,
) -> Result<Option<KeyLine>, NoMemory>
    ensures ring { SameConsumer ring.old ring.new }
    ensures came { IfOk result (λ key. received ring.new ≡ received ring.old ++ key ∷ []) }
    ensures allowed { IfOk result (λ key. NotOver (received ring.old)) }
    ensures lost { OnErr result (received ring.new ≡ received ring.old) }
{
    for _ in rt.forever() {
        if let Ok(key) = ring.pop() {
            return Ok(key);
        }
        if bells.lost.load(Ordering::SeqCst) {
            return Err(NoMemory);
        }
        bells.room.unpark();
        bells.keys.park(rt);
    }
    unreachable!()
}
