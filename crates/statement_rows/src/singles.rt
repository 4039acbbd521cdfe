//! Pieces of one word or one part, which must be there.
//!
//! A `match` replaces `?`: the type of what a piece gives is large, and each call at that type is
//! slow to prove.

ghost use Rattle.std.specs.Prelude.{◌≤◌, length};
ghost use Rattle.statement_rows.specs.declared.piece.Piece.TheVariants as piece;
ghost use Rattle.statement_rows.specs.Pieces.{PieceRead};

use crate::part::Part;
use basic_expr::{Failure, Words};
use basic_tree::{Keyword, Sign, Want};
use statement_parts::{Literal, Read, expression, literal, name, take_key, take_sign};
use std::alloc::Global;

/// Reads a keyword, which gives nothing.
#[tactic(auto)]
pub fn key(
    words: &Words<'_>,
    from: usize,
    key: Keyword,
    levels: usize,
) -> Result<Read<Option<Part>>, Failure>
    requires { from ≤ length words.now }
    ensures { PieceRead levels words.now from (piece.Key key) result }
{
    match take_key(words, from, key) {
        Ok(end) => Ok(Read { value: None, end }),
        Err(failure) => Err(failure),
    }
}

/// Reads a sign, which gives nothing.
#[tactic(auto)]
pub fn sign(
    words: &Words<'_>,
    from: usize,
    sign: Sign,
    levels: usize,
) -> Result<Read<Option<Part>>, Failure>
    requires { from ≤ length words.now }
    ensures { PieceRead levels words.now from (piece.Sign sign) result }
{
    match take_sign(words, from, sign) {
        Ok(end) => Ok(Read { value: None, end }),
        Err(failure) => Err(failure),
    }
}

/// Reads an expression of this kind.
#[tactic(auto)]
pub fn value(
    alloc: Global,
    words: &Words<'_>,
    from: usize,
    want: Want,
    levels: usize,
) -> Result<Read<Option<Part>>, Failure>
    requires { from ≤ length words.now }
    ensures { PieceRead levels words.now from (piece.Value want) result }
{
    match expression(alloc, words, from, want, levels) {
        Ok(Read { value: found, end }) => Ok(Read {
            value: Some(Part::Value(found)),
            end,
        }),
        Err(failure) => Err(failure),
    }
}

/// Reads the name of a variable of this kind.
#[tactic(auto)]
pub fn variable(
    words: &Words<'_>,
    from: usize,
    want: Want,
    levels: usize,
) -> Result<Read<Option<Part>>, Failure>
    requires { from ≤ length words.now }
    ensures { PieceRead levels words.now from (piece.Variable want) result }
{
    match name(words, from, want) {
        Ok(Read { value: found, end }) => Ok(Read {
            value: Some(Part::Variable(found)),
            end,
        }),
        Err(failure) => Err(failure),
    }
}

/// Reads a line number.
#[tactic(auto)]
pub fn line(words: &Words<'_>, from: usize, levels: usize) -> Result<Read<Option<Part>>, Failure>
    requires { from ≤ length words.now }
    ensures { PieceRead levels words.now from piece.Line result }
{
    match literal(words, from, Literal::LineNumber) {
        Ok(Read { value: found, end }) => Ok(Read {
            value: Some(Part::Number(found)),
            end,
        }),
        Err(failure) => Err(failure),
    }
}

/// Reads a literal from 0 to 32767.
#[tactic(auto)]
pub fn bound(words: &Words<'_>, from: usize, levels: usize) -> Result<Read<Option<Part>>, Failure>
    requires { from ≤ length words.now }
    ensures { PieceRead levels words.now from piece.Bound result }
{
    match literal(words, from, Literal::Bound) {
        Ok(Read { value: found, end }) => Ok(Read {
            value: Some(Part::Number(found)),
            end,
        }),
        Err(failure) => Err(failure),
    }
}
