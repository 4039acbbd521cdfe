//! A keyboard whose lines are all known before the job begins.

ghost use Rattle.std.specs.Prelude.{◌≡◌, ◌≤◌, IfOk, IsOk, [], take, drop, length, true};
ghost use Rattle.monitor_calls.specs.Typing.{TypedOn, Open};
ghost use Rattle.terminal_runner.specs.Batches.{typed_lines};

use crate::keyboards::Keyboard;
use basic_values::{KeyLine, NoMemory};
use std::alloc::Global;
use std::collections::VecDeque;
use std::snapshot::Snapshot;

/// The key lines that are left of a list.
#[derive(Drop)]
pub struct BatchKeyboard {
    all: Snapshot<Vec<KeyLine>>,
    left: VecDeque<KeyLine>,
    taken: usize,
    over: bool,
    ghost left_are: { left.items ≡ drop taken all.value.items },
    ghost within: { taken ≤ length all.value.items },
    ghost over_is: { over ≡ true → left.items ≡ [] },
}

impl BatchKeyboard {
    /// Returns a keyboard at which these lines are typed, in order, and no more.
    pub fn new(lines: Vec<KeyLine>) -> BatchKeyboard
        ensures all { result.all.value ≡ lines }
        ensures none { typed_lines result.over (take result.taken result.all.value.items) ≡ Open }
    {
        let all = Snapshot::of(&lines);
        BatchKeyboard {
            all,
            left: VecDeque::from(lines),
            taken: 0,
            over: false,
        }
    }
}

impl Keyboard for BatchKeyboard {
    type Which = Vec<KeyLine>;

    ghost which = { λ k. k.all.value };

    ghost keys = { λ k. typed_lines k.over (take k.taken k.all.value.items) };

    fn type_line(&mut self, _alloc: Global) -> Result<Option<KeyLine>, NoMemory>
        ensures same { self.new.all.value ≡ self.old.all.value }
        ensures ok { IfOk result (λ key.
            TypedOn (typed_lines self.old.over (take self.old.taken self.old.all.value.items))
            key
            (typed_lines self.new.over (take self.new.taken self.new.all.value.items))) }
        ensures memory { IsOk result }
    {
        match self.left.pop_front() {
            Some(line) => {
                self.taken += 1;
                Ok(Some(line))
            }
            None => {
                self.over = true;
                Ok(None)
            }
        }
    }
}
