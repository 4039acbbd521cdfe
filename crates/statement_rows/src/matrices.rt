//! What MAT stores in an array: a constant, or what is computed from other arrays.

ghost use Rattle.std.specs.Prelude.{◌+◌, ◌≤◌, length};
ghost use Rattle.statement_rows.specs.declared.piece.Piece.TheVariants as piece;
ghost use Rattle.statement_rows.specs.Pieces.{PieceRead};

use crate::part::Part;
use basic_expr::{Failure, Words};
use basic_tree::{Keyword, MatrixValue};
use statement_operands::operands;
use statement_parts::{Read, if_key};
use std::alloc::Global;

/// Reads what MAT stores.
#[tactic(auto)]
pub fn matrix(
    alloc: Global,
    words: &Words<'_>,
    from: usize,
    levels: usize,
) -> Result<Read<Option<Part>>, Failure>
    requires { from ≤ length words.now }
    ensures { PieceRead levels words.now from piece.Matrix result }
{
    if if_key(words, from, Keyword::Zer) {
        return Ok(Read {
            value: Some(Part::Matrix(MatrixValue::Zero)),
            end: from + 1,
        });
    }
    if if_key(words, from, Keyword::Con) {
        return Ok(Read {
            value: Some(Part::Matrix(MatrixValue::One)),
            end: from + 1,
        });
    }
    if if_key(words, from, Keyword::Idn) {
        return Ok(Read {
            value: Some(Part::Matrix(MatrixValue::Identity)),
            end: from + 1,
        });
    }
    let Read { value: made, end } = operands(alloc, words, from, levels)?;
    Ok(Read {
        value: Some(Part::Matrix(made)),
        end,
    })
}
