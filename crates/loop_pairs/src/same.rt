//! What two statements or two names have in common.

ghost use Rattle.std.specs.Prelude.{◌≡◌};
ghost use Rattle.job_memory.specs.Names.{at_name};
ghost use Rattle.program_model.specs.Program.{same_body};

use basic_tree::Name;

/// Returns whether two names are equal.
pub fn same_name(one: Name, other: Name) -> bool
    ensures { result ≡ at_name one other }
{
    one.cmp(&other).is_eq()
}

/// Returns whether two statements are in one body, each given by the number of its DEF, or both
/// outside of all bodies.
pub fn same_body(one: Option<usize>, other: Option<usize>) -> bool
    ensures { result ≡ same_body one other }
{
    match one {
        None => match other {
            None => true,
            Some(_) => false,
        },
        Some(a) => match other {
            None => false,
            Some(b) => a == b,
        },
    }
}
