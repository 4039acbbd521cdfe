//! PRINT USING: the format, and the values that are written with it.

ghost use Rattle.std.specs.Prelude.{◌≤◌, length, option_map, MatchBool};
ghost use Rattle.basic_expr.specs.Views.{most_words};
ghost use Rattle.basic_tree.specs.TreeViews.{tree_of};
ghost use Rattle.grammar_machine.specs.MachineSentences.{using_form};
ghost use Rattle.statement_lists.specs.Usings.{UsesAll, UsesNone, UsesPart, UsesValue};
ghost use Rattle.statement_parts.specs.ParsedForms.{States};

use basic_expr::{Failure, Words, begins_value};
use basic_tree::{Expr, Separator, Series, Sign, Statement, UsingItem, Want};
use statement_parts::{Read, expression, if_sign, take_sign};
use std::alloc::Global;

/// A part of PRINT USING: a value with its separator, or the last one.
#[derive(Drop)]
pub(crate) enum Part {
    Item(UsingItem),
    Last(Expr),
}

/// The values of PRINT USING, and the last one, if no separator follows it.
#[derive(Drop)]
pub(crate) struct UsedValues {
    pub values: Series<UsingItem>,
    pub last: Option<Expr>,
}

/// Returns whether one more value begins at a place.
#[tactic(auto, using(crate::proofs::UsingSteps::values))]
fn if_value(words: &Words<'_>, from: usize) -> bool
    requires { from ≤ length words.now }
    ensures begins { MatchBool result (UsesValue words.now from) (UsesNone words.now from) }
    ensures few { length words.now ≤ most_words }
{
    match words.peek(from) {
        None => false,
        Some(word) => begins_value(word),
    }
}

/// Reads a value with its separator, or the last value.
#[tactic(auto, using(statement_parts::proofs::Steps::leading))]
fn read_part(
    alloc: Global,
    words: &Words<'_>,
    from: usize,
    levels: usize,
) -> Result<Read<Part>, Failure>
    requires { from ≤ length words.now }
    ensures { UsesPart levels words.now from result }
{
    let Read { value, end } = expression(alloc, words, from, Want::Either, levels)?;
    if if_sign(words, end, Sign::Comma) {
        let separator = Separator::Comma;
        return Ok(Read {
            value: Part::Item(UsingItem { value, separator }),
            end: end + 1,
        });
    }
    if if_sign(words, end, Sign::Semicolon) {
        let separator = Separator::Semicolon;
        return Ok(Read {
            value: Part::Item(UsingItem { value, separator }),
            end: end + 1,
        });
    }
    Ok(Read {
        value: Part::Last(value),
        end,
    })
}

/// Reads one or more values.
#[tactic(auto, using(crate::proofs::UsingSteps::loops))]
fn all_values(
    alloc: Global,
    words: &Words<'_>,
    from: usize,
    levels: usize,
) -> Result<Read<UsedValues>, Failure>
    requires { from ≤ length words.now }
    ensures { UsesAll levels words.now from result }
{
    let mut values = Vec::new(alloc);
    let mut end = from;
    'more: loop {
        let Read {
            value: part,
            end: behind,
        } = read_part(alloc, words, end, levels)?;
        match part {
            Part::Item(item) => {
                values.push(item)?;
                end = behind;
                if !if_value(words, end) {
                    let values = Series::from_vec(values);
                    return Ok(Read {
                        value: UsedValues { values, last: None },
                        end,
                    });
                }
            }
            Part::Last(last) => {
                let values = Series::from_vec(values);
                return Ok(Read {
                    value: UsedValues {
                        values,
                        last: Some(last),
                    },
                    end: behind,
                });
            }
        }
    }
}

/// Reads what follows USING: the format, a comma and the values, to be written to this channel.
#[tactic(auto, using(statement_parts::proofs::Steps::leading))]
pub fn print_using(
    alloc: Global,
    words: &Words<'_>,
    from: usize,
    channel: Option<Expr>,
    levels: usize,
) -> Result<Read<Statement>, Failure>
    requires { from ≤ length words.now }
    ensures { States levels words.now from (using_form (option_map tree_of channel)) result }
{
    let Read {
        value: format,
        end: formatted,
    } = expression(alloc, words, from, Want::Text, levels)?;
    let at = take_sign(words, formatted, Sign::Comma)?;
    let Read { value: found, end } = all_values(alloc, words, at, levels)?;
    Ok(Read {
        value: Statement::PrintUsing {
            channel,
            format,
            values: found.values,
            last: found.last,
        },
        end,
    })
}
