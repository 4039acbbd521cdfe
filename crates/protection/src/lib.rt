//! What the protection code of a file lets a caller do. The crate depends on `monitor_model`, and
//! `allows` is proved to be its definition.
#![tactic(auto)]

ghost use Rattle.std.specs.Prelude.{◌≡◌};
ghost use Rattle.monitor_model.specs.Allows.{allows, refusing_bit};

use basic_values::limits::SYSTEM_PROJECT;
use monitor_calls::Account;
pub use monitor_model::Right;

/// Returns whether a file's code leaves the right to the caller. It always does for project 1. For
/// others it does if it lacks the bit that refuses the owner, another account of the owner's
/// project, or all others.
#[tactic(auto, unfolding(monitor_model::specs::Allows::allows))]
pub fn allows(caller: Account, owner: Account, code: u8, right: Right) -> bool
    ensures { result ≡ allows caller owner code right }
{
    caller.project == SYSTEM_PROJECT || code & refusing_bit(caller, owner, right) == 0
}

/// Returns the bit of a code that refuses the right to the caller.
fn refusing_bit(caller: Account, owner: Account, right: Right) -> u8
    ensures { result ≡ refusing_bit caller owner right }
{
    let owner_bit = match right {
        Right::Read => 1,
        Right::Write => 2,
    };
    if caller == owner {
        owner_bit
    } else if caller.project == owner.project {
        4 * owner_bit
    } else {
        16 * owner_bit
    }
}
