//! Assignments: targets of one kind, and the value that is stored in them.

ghost use Rattle.std.specs.Prelude.{◌≡◌, ◌≤◌, length, map};
ghost use Rattle.basic_tree.specs.SpellingExpressions.{want_of};
ghost use Rattle.basic_tree.specs.TreeViews.{target_of, tree_of};
ghost use Rattle.statement_lists.specs.ListForms.{assigned_form, value_form};
ghost use Rattle.statement_parts.specs.ParsedForms.{Parts};

use crate::lists::more_elements;
use basic_expr::{Failure, Words};
use basic_tree::{Expr, Series, Sign, Target, Want};
use statement_parts::{Read, expression, take_sign, target, target_text};
use std::alloc::Global;

/// Targets, and the value that is stored in them.
#[derive(Drop)]
pub struct Assigned {
    pub targets: Series<Target>,
    pub value: Expr,
}

/// Returns the kind of value that a string, or else a number, is.
pub fn want_of(text: bool) -> Want
    ensures { result ≡ want_of text }
{
    if text { Want::Text } else { Want::Number }
}

/// Reads `=` and a value of the expected kind.
#[tactic(auto, using(statement_parts::proofs::Steps::leading))]
fn assigned_value(
    alloc: Global,
    words: &Words<'_>,
    from: usize,
    want: Want,
    levels: usize,
) -> Result<Read<Expr>, Failure>
    requires { from ≤ length words.now }
    ensures { Parts levels words.now from (value_form want) (λ x g. g (tree_of x)) result }
{
    let at = take_sign(words, from, Sign::Equal)?;
    expression(alloc, words, at, want, levels)
}

/// Reads targets of one kind, `=` and the value.
// The targets are dropped by `drop`: if a `?` dropped them, the proof would go through all their
// forms.
pub fn assignment(
    alloc: Global,
    words: &Words<'_>,
    from: usize,
    levels: usize,
) -> Result<Read<Assigned>, Failure>
    requires { from ≤ length words.now }
    ensures { Parts levels words.now from assigned_form
        (λ x g. g (map target_of x.targets) (tree_of x.value)) result }
{
    let Read {
        value: first,
        end: named,
    } = target(alloc, words, from, Want::Either, levels)?;
    let kind = want_of(target_text(&first));
    let Read {
        value: targets,
        end: listed,
    } = more_elements::<Target>(alloc, words, named, first, kind, levels)?;
    match assigned_value(alloc, words, listed, kind, levels) {
        Ok(Read { value, end }) => Ok(Read {
            value: Assigned { targets, value },
            end,
        }),
        Err(failure) => {
            drop(targets);
            Err(failure)
        }
    }
}
