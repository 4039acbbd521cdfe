//! The ranges of loops.

ghost use Rattle.std.specs.Prelude.{◌≡◌, ℕ, ◌+◌, ◌<◌, ◌≤◌, length, option_map};
ghost use Rattle.basic_tree.specs.TreeViews.{tree_of};
ghost use Rattle.grammar_machine.specs.MachineForms.{range_form};
ghost use Rattle.statement_parts.specs.Forms.{limits_form, loop_form, step_form};
ghost use Rattle.statement_parts.specs.ParsedForms.{FlatParts, Parts, PartsFrom};

use crate::names::name;
use crate::read::Read;
use crate::reading::{expression, if_key, take_key, take_sign};
use basic_expr::{Failure, Words};
use basic_tree::{Expr, Keyword, Name, Sign, Want};
use std::alloc::Global;

/// The variable of a loop and the values that it takes: from a start to a limit, with an optional
/// step.
#[derive(Drop)]
pub struct LoopRange {
    pub variable: Name,
    pub start: Expr,
    pub limit: Expr,
    pub step: Option<Expr>,
}

/// Reads STEP and a number, if STEP is there.
#[tactic(auto, using(crate::proofs::Steps::leading))]
fn step(
    alloc: Global,
    words: &Words<'_>,
    from: usize,
    levels: usize,
) -> Result<Read<Option<Expr>>, Failure>
    requires { from ≤ length words.now }
    ensures { PartsFrom levels words.now from step_form (λ x g. g (option_map tree_of x)) result }
{
    if if_key(words, from, Keyword::Step) {
        let Read { value: step, end } = expression(alloc, words, from + 1, Want::Number, levels)?;
        return Ok(Read {
            value: Some(step),
            end,
        });
    }
    Ok(Read {
        value: None,
        end: from,
    })
}

/// Reads the variable of a loop and `=`.
#[tactic(auto, using(crate::proofs::Steps::leading))]
fn loop_variable(words: &Words<'_>, from: usize) -> Result<Read<Name>, Failure>
    requires { from ≤ length words.now }
    ensures { FlatParts words.now from loop_form (λ x g. g x) result }
{
    let Read {
        value: variable,
        end: named,
    } = name(words, from, Want::Number)?;
    let end = take_sign(words, named, Sign::Equal)?;
    Ok(Read {
        value: variable,
        end,
    })
}

/// The limit of a loop, and its step if it has one.
#[derive(Drop)]
struct Limits {
    limit: Expr,
    step: Option<Expr>,
}

/// Reads TO, the limit of a loop and its step, if it has one.
#[tactic(auto, using(crate::proofs::Steps::leading))]
fn limits_of(
    alloc: Global,
    words: &Words<'_>,
    from: usize,
    levels: usize,
) -> Result<Read<Limits>, Failure>
    requires { from ≤ length words.now }
    ensures { Parts levels words.now from limits_form
        (λ x g. g (tree_of x.limit) (option_map tree_of x.step)) result }
{
    let behind = take_key(words, from, Keyword::To)?;
    let Read {
        value: limit,
        end: limited,
    } = expression(alloc, words, behind, Want::Number, levels)?;
    match step(alloc, words, limited, levels) {
        Ok(Read { value: step, end }) => Ok(Read {
            value: Limits { limit, step },
            end,
        }),
        Err(failure) => {
            drop(limit);
            Err(failure)
        }
    }
}

/// Reads a range.
// Trees are dropped by `drop`: if a `?` dropped them, the proof would go through all forms of a
// tree.
#[tactic(auto, using(crate::proofs::Steps::leading))]
pub fn range(
    alloc: Global,
    words: &Words<'_>,
    from: usize,
    levels: usize,
) -> Result<Read<LoopRange>, Failure>
    requires { from ≤ length words.now }
    ensures { Parts levels words.now from range_form
        (λ x g. g x.variable (tree_of x.start) (tree_of x.limit) (option_map tree_of x.step))
        result }
{
    let Read {
        value: variable,
        end: at,
    } = loop_variable(words, from)?;
    let Read {
        value: start,
        end: started,
    } = expression(alloc, words, at, Want::Number, levels)?;
    match limits_of(alloc, words, started, levels) {
        Ok(
            Read {
                value: Limits { limit, step },
                end,
            },
        ) => Ok(Read {
            value: LoopRange {
                variable,
                start,
                limit,
                step,
            },
            end,
        }),
        Err(failure) => {
            drop(start);
            Err(failure)
        }
    }
}
