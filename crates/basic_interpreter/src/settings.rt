//! The state in which a program or a line begins.

ghost use Rattle.std.specs.Prelude.{◌≡◌, IfOk};
ghost use Rattle.basic_interpreter.specs.Setting.{fresh_limits};

use basic_values::{Int, NoMemory};
use program_model::Home;
use std::alloc::Global;

/// The home before any statement of a line.
pub(crate) const NO_HOME: Home = Home {
    start: 0,
    behind: 0,
    line: 0,
};

/// Returns limit 0 and step 1 for each of this many FORs.
pub(crate) fn fresh_limits(alloc: Global, loops: usize) -> Result<Vec<(Int, Int)>, NoMemory>
    ensures { IfOk result (λ limits. limits.items ≡ fresh_limits loops) }
{
    let mut limits = Vec::with_capacity(alloc, loops)?;
    for made in 0..loops {
        limits.push((Int::new(0), Int::new(1)))?;
    }
    Ok(limits)
}
