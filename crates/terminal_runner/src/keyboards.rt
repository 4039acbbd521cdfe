//! Keyboards: what is typed at a terminal.

ghost use Rattle.std.specs.Prelude.{◌≡◌, IfOk, OnErr};
ghost use Rattle.monitor_calls.specs.Typing.{Typing, TypedOn};

use basic_values::{KeyLine, NoMemory};
use std::alloc::Global;

/// The keyboard of a terminal, which gives one key line after another.
pub trait Keyboard {
    /// Which keyboard it is. No call changes it.
    type Which;

    ghost which: { Self → Self.Which };

    /// The lines that were typed and taken so far, and whether the keys are at their end.
    ghost keys: { Self → Typing };

    /// Waits for the next key line and returns it, or none at the end of the keys. If memory runs
    /// out, no line was taken.
    fn type_line(&mut self, alloc: Global) -> Result<Option<KeyLine>, NoMemory>
        ensures same { which self.new ≡ which self.old }
        ensures ok { IfOk result (λ key. TypedOn (keys self.old) key (keys self.new)) }
        ensures memory { OnErr result (keys self.new ≡ keys self.old) };
}
