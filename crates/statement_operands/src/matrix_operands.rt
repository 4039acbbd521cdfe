//! What MAT computes from other arrays, by their names.

ghost use Rattle.std.specs.Prelude.{◌+◌, ◌-◌, ◌<◌, ◌≤◌, length};
ghost use Rattle.basic_tree.specs.TreeViews.{matrix_of};
ghost use Rattle.statement_parts.specs.ParsedForms.{FlatPartsFrom, Parts};
ghost use Rattle.statement_operands.specs.Matrices.{operands_form, pair_form, scaled_form};
ghost use Rattle.statement_operands.specs.Matrices.{transposed_form};

use basic_expr::{Failure, Words};
use basic_tree::{Keyword, MatrixValue, Name, Sign, Want};
use statement_parts::{
    Read, closing, expression, if_key, if_sign, name, opening, opens_there, take_sign,
};
use std::alloc::Global;

/// Reads an array in parentheses after TRN.
#[tactic(auto)]
fn transposed(words: &Words<'_>, from: usize, levels: usize) -> Result<Read<MatrixValue>, Failure>
    requires { from ≤ length words.now }
    ensures { Parts levels words.now from transposed_form (λ x g. g (matrix_of x)) result }
{
    let opened = opening(words, from, levels)?;
    let Read {
        value: matrix,
        end: named,
    } = name(words, opened, Want::Number)?;
    let end = closing(words, named, levels)?;
    Ok(Read {
        value: MatrixValue::Transposed(matrix),
        end,
    })
}

/// Reads a number in parentheses, `*` and an array.
#[tactic(auto)]
fn scaled(
    alloc: Global,
    words: &Words<'_>,
    from: usize,
    levels: usize,
) -> Result<Read<MatrixValue>, Failure>
    requires { from ≤ length words.now }
    ensures { Parts levels words.now from scaled_form (λ x g. g (matrix_of x)) result }
{
    let opened = opening(words, from, levels)?;
    let Read {
        value: factor,
        end: inner,
    } = expression(alloc, words, opened, Want::Number, levels - 1)?;
    let closed = closing(words, inner, levels)?;
    let behind = take_sign(words, closed, Sign::Star)?;
    let Read { value: matrix, end } = name(words, behind, Want::Number)?;
    Ok(Read {
        value: MatrixValue::Scaled { factor, matrix },
        end,
    })
}

/// Reads a sign and a second array after a first one, or nothing.
#[tactic(auto)]
fn pair(words: &Words<'_>, from: usize, first: Name) -> Result<Read<MatrixValue>, Failure>
    requires { from ≤ length words.now }
    ensures { FlatPartsFrom words.now from (pair_form first) (λ x g. g (matrix_of x)) result }
{
    if if_sign(words, from, Sign::Plus) {
        let Read { value: second, end } = name(words, from + 1, Want::Number)?;
        return Ok(Read {
            value: MatrixValue::Sum(first, second),
            end,
        });
    }
    if if_sign(words, from, Sign::Minus) {
        let Read { value: second, end } = name(words, from + 1, Want::Number)?;
        return Ok(Read {
            value: MatrixValue::Difference(first, second),
            end,
        });
    }
    if if_sign(words, from, Sign::Star) {
        let Read { value: second, end } = name(words, from + 1, Want::Number)?;
        return Ok(Read {
            value: MatrixValue::Product(first, second),
            end,
        });
    }
    Ok(Read {
        value: MatrixValue::Copy(first),
        end: from,
    })
}

/// Reads what is computed from other arrays.
#[tactic(auto)]
pub fn operands(
    alloc: Global,
    words: &Words<'_>,
    from: usize,
    levels: usize,
) -> Result<Read<MatrixValue>, Failure>
    requires { from ≤ length words.now }
    ensures { Parts levels words.now from operands_form (λ x g. g (matrix_of x)) result }
{
    if if_key(words, from, Keyword::Trn) {
        return transposed(words, from + 1, levels);
    }
    if opens_there(words, from) {
        return scaled(alloc, words, from, levels);
    }
    let Read {
        value: first,
        end: named,
    } = name(words, from, Want::Number)?;
    pair(words, named, first)
}
