//! Targets: the variables and array elements to which a statement assigns values.

ghost use Rattle.std.specs.Prelude.{◌≡◌, ℕ, ◌+◌, ◌≤◌, length};
ghost use Rattle.basic_tree.specs.SpellingExpressions.{is_text};
ghost use Rattle.basic_tree.specs.TreeViews.{target_of};
ghost use Rattle.grammar_machine.specs.MachineStack.{TargetOf};
ghost use Rattle.statement_parts.specs.ParsedForms.{Parts};

use crate::names::next_name;
use crate::read::Read;
use basic_expr::{Failure, Words, subscripts_at, takes};
use basic_tree::{Target, Want};
use std::alloc::Global;

/// Returns whether a target takes a string.
pub fn target_text(target: &Target) -> bool
    ensures { result ≡ is_text (target_of target.now) }
{
    match target {
        Target::Variable(name) => name.text,
        Target::Element { name, .. } => name.text,
    }
}

/// Reads a variable or an array element of the expected kind.
#[tactic(auto, using(crate::proofs::TargetSteps::targets))]
pub fn target(
    alloc: Global,
    words: &Words<'_>,
    from: usize,
    want: Want,
    levels: usize,
) -> Result<Read<Target>, Failure>
    requires { from ≤ length words.now }
    ensures { Parts levels words.now from (TargetOf want) (λ x g. g (target_of x)) result }
{
    match next_name(words, from) {
        None => Err(Failure::Wrong { place: from }),
        Some(name) => if takes(want, name.text) {
            let found = subscripts_at(alloc, words, from + 1, name, levels)?;
            match found.tree.into_target() {
                Some(target) => Ok(Read {
                    value: target,
                    end: found.end,
                }),
                None => unreachable!(),
            }
        } else {
            Err(Failure::Wrong { place: from })
        },
    }
}
