//! The options of OPEN.

ghost use Rattle.std.specs.Prelude.{◌≤◌, length, option_map};
ghost use Rattle.basic_tree.specs.TreeViews.{tree_of};
ghost use Rattle.grammar_machine.specs.MachineForms.{cluster_form, number_option, options_form};
ghost use Rattle.statement_parts.specs.ParsedForms.{Parts, PartsFrom};
ghost use Rattle.statement_operands.specs.OptionForms.{clustered_form, recorded_form};

use basic_expr::{Failure, Words};
use basic_tree::{Expr, Keyword, Sign, Want};
use statement_parts::{Read, expression, if_key, if_sign, take_key};
use std::alloc::Global;

/// The options of OPEN.
#[derive(Drop)]
pub struct OpenOptions {
    pub record_size: Option<Expr>,
    pub cluster_size: Option<Expr>,
    pub mode: Option<Expr>,
}

/// Reads a comma, a word and a number, if there is a comma.
#[tactic(auto, using(statement_parts::proofs::Steps::leading))]
pub fn option(
    alloc: Global,
    words: &Words<'_>,
    from: usize,
    key: Keyword,
    levels: usize,
) -> Result<Read<Option<Expr>>, Failure>
    requires { from ≤ length words.now }
    ensures { PartsFrom levels words.now from (number_option key)
        (λ x g. g (option_map tree_of x)) result }
{
    if if_sign(words, from, Sign::Comma) {
        let at = take_key(words, from + 1, key)?;
        let Read { value: number, end } = expression(alloc, words, at, Want::Number, levels)?;
        return Ok(Read {
            value: Some(number),
            end,
        });
    }
    Ok(Read {
        value: None,
        end: from,
    })
}

/// Reads CLUSTERSIZE and MODE, as far as they are there.
#[tactic(auto, using(statement_parts::proofs::Steps::leading))]
fn cluster_and_mode(
    alloc: Global,
    words: &Words<'_>,
    from: usize,
    levels: usize,
) -> Result<Read<(Option<Expr>, Option<Expr>)>, Failure>
    requires { from ≤ length words.now }
    ensures { PartsFrom levels words.now from cluster_form
        (λ x g. g (option_map tree_of x.0) (option_map tree_of x.1)) result }
{
    if if_sign(words, from, Sign::Comma) {
        let at = from + 1;
        if if_key(words, at, Keyword::ClusterSize) {
            let Read {
                value: size,
                end: sized,
            } = expression(alloc, words, at + 1, Want::Number, levels)?;
            let Read { value: mode, end } = option(alloc, words, sized, Keyword::Mode, levels)?;
            return Ok(Read {
                value: (Some(size), mode),
                end,
            });
        }
        let behind = take_key(words, at, Keyword::Mode)?;
        let Read { value: mode, end } = expression(alloc, words, behind, Want::Number, levels)?;
        return Ok(Read {
            value: (None, Some(mode)),
            end,
        });
    }
    Ok(Read {
        value: (None, None),
        end: from,
    })
}

/// Reads the number of a RECORDSIZE, and the CLUSTERSIZE and MODE that follow it.
#[tactic(auto, using(statement_parts::proofs::Steps::leading))]
fn recorded(
    alloc: Global,
    words: &Words<'_>,
    from: usize,
    levels: usize,
) -> Result<Read<OpenOptions>, Failure>
    requires { from ≤ length words.now }
    ensures { Parts levels words.now from recorded_form (λ x g. g
        (option_map tree_of x.record_size) (option_map tree_of x.cluster_size)
        (option_map tree_of x.mode)) result }
{
    let Read {
        value: size,
        end: sized,
    } = expression(alloc, words, from, Want::Number, levels)?;
    let Read {
        value: (cluster_size, mode),
        end,
    } = cluster_and_mode(alloc, words, sized, levels)?;
    Ok(Read {
        value: OpenOptions {
            record_size: Some(size),
            cluster_size,
            mode,
        },
        end,
    })
}

/// Reads the number of a CLUSTERSIZE, and the MODE that follows it.
#[tactic(auto, using(statement_parts::proofs::Steps::leading))]
fn clustered(
    alloc: Global,
    words: &Words<'_>,
    from: usize,
    levels: usize,
) -> Result<Read<OpenOptions>, Failure>
    requires { from ≤ length words.now }
    ensures { Parts levels words.now from clustered_form (λ x g. g
        (option_map tree_of x.record_size) (option_map tree_of x.cluster_size)
        (option_map tree_of x.mode)) result }
{
    let Read {
        value: size,
        end: sized,
    } = expression(alloc, words, from, Want::Number, levels)?;
    let Read { value: mode, end } = option(alloc, words, sized, Keyword::Mode, levels)?;
    Ok(Read {
        value: OpenOptions {
            record_size: None,
            cluster_size: Some(size),
            mode,
        },
        end,
    })
}

/// Reads the options of OPEN, as far as they are there.
#[tactic(auto, using(statement_parts::proofs::Steps::leading))]
pub fn options(
    alloc: Global,
    words: &Words<'_>,
    from: usize,
    levels: usize,
) -> Result<Read<OpenOptions>, Failure>
    requires { from ≤ length words.now }
    ensures { PartsFrom levels words.now from options_form (λ x g. g
        (option_map tree_of x.record_size) (option_map tree_of x.cluster_size)
        (option_map tree_of x.mode)) result }
{
    if if_sign(words, from, Sign::Comma) {
        let at = from + 1;
        if if_key(words, at, Keyword::RecordSize) {
            return recorded(alloc, words, at + 1, levels);
        }
        if if_key(words, at, Keyword::ClusterSize) {
            return clustered(alloc, words, at + 1, levels);
        }
        let behind = take_key(words, at, Keyword::Mode)?;
        let Read { value: mode, end } = expression(alloc, words, behind, Want::Number, levels)?;
        return Ok(Read {
            value: OpenOptions {
                record_size: None,
                cluster_size: None,
                mode: Some(mode),
            },
            end,
        });
    }
    Ok(Read {
        value: OpenOptions {
            record_size: None,
            cluster_size: None,
            mode: None,
        },
        end: from,
    })
}
