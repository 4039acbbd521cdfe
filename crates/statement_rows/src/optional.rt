//! Optional pieces, and choices: each says what was there.
//!
//! A `match` replaces `?` where it can: the type of what a piece gives is large, and each call at
//! that type is slow to prove.

ghost use Rattle.std.specs.Prelude.{◌≤◌, length};
ghost use Rattle.statement_rows.specs.declared.piece.Piece.TheVariants as piece;
ghost use Rattle.statement_rows.specs.Pieces.{PieceRead};

use crate::part::Part;
use basic_expr::{Failure, Words};
use basic_tree::{Keyword, OpenFor, Separator, Sign, Want};
use statement_operands::{option, options};
use statement_parts::{
    Literal, Read, expression, if_key, if_literal, if_sign, take_key, take_sign,
};
use std::alloc::Global;

/// Reads one of two words.
#[tactic(auto)]
pub fn either(
    words: &Words<'_>,
    from: usize,
    first: Keyword,
    second: Keyword,
    levels: usize,
) -> Result<Read<Option<Part>>, Failure>
    requires { from ≤ length words.now }
    ensures { PieceRead levels words.now from (piece.Either first second) result }
{
    if if_key(words, from, first) {
        return Ok(Read {
            value: Some(Part::Mark(true)),
            end: from + 1,
        });
    }
    match take_key(words, from, second) {
        Ok(end) => Ok(Read {
            value: Some(Part::Mark(false)),
            end,
        }),
        Err(failure) => Err(failure),
    }
}

/// Reads a sign, if it is there.
#[tactic(auto)]
pub fn mark(
    words: &Words<'_>,
    from: usize,
    sign: Sign,
    levels: usize,
) -> Result<Read<Option<Part>>, Failure>
    requires { from ≤ length words.now }
    ensures { PieceRead levels words.now from (piece.Mark sign) result }
{
    if if_sign(words, from, sign) {
        return Ok(Read {
            value: Some(Part::Mark(true)),
            end: from + 1,
        });
    }
    Ok(Read {
        value: Some(Part::Mark(false)),
        end: from,
    })
}

/// Reads a comma, a word and a number, if there is a comma.
#[tactic(auto)]
pub fn perhaps_number(
    alloc: Global,
    words: &Words<'_>,
    from: usize,
    key: Keyword,
    levels: usize,
) -> Result<Read<Option<Part>>, Failure>
    requires { from ≤ length words.now }
    ensures { PieceRead levels words.now from (piece.Option key) result }
{
    let Read { value: found, end } = option(alloc, words, from, key, levels)?;
    Ok(Read {
        value: Some(Part::Perhaps(found)),
        end,
    })
}

/// Reads `#`, a channel and a comma, if there is a `#`.
#[tactic(auto)]
pub fn perhaps_channel(
    alloc: Global,
    words: &Words<'_>,
    from: usize,
    levels: usize,
) -> Result<Read<Option<Part>>, Failure>
    requires { from ≤ length words.now }
    ensures { PieceRead levels words.now from piece.PerhapsChannel result }
{
    if !if_sign(words, from, Sign::Hash) {
        return Ok(Read {
            value: Some(Part::Perhaps(None)),
            end: from,
        });
    }
    match expression(alloc, words, from + 1, Want::Number, levels) {
        Ok(channel) => match take_sign(words, channel.end, Sign::Comma) {
            Ok(end) => Ok(Read {
                value: Some(Part::Perhaps(Some(channel.value))),
                end,
            }),
            Err(failure) => Err(failure),
        },
        Err(failure) => Err(failure),
    }
}

/// Reads a line number or 0, if it is there.
#[tactic(auto)]
pub fn perhaps_line(
    words: &Words<'_>,
    from: usize,
    levels: usize,
) -> Result<Read<Option<Part>>, Failure>
    requires { from ≤ length words.now }
    ensures { PieceRead levels words.now from piece.PerhapsLine result }
{
    match if_literal(words, from, Literal::Bound) {
        Some(line) => Ok(Read {
            value: Some(Part::PerhapsLine(Some(line))),
            end: from + 1,
        }),
        None => Ok(Read {
            value: Some(Part::PerhapsLine(None)),
            end: from,
        }),
    }
}

/// Reads FOR INPUT or FOR OUTPUT, if there is a FOR.
#[tactic(auto)]
pub fn purpose(words: &Words<'_>, from: usize, levels: usize) -> Result<Read<Option<Part>>, Failure>
    requires { from ≤ length words.now }
    ensures { PieceRead levels words.now from piece.Purpose result }
{
    if if_key(words, from, Keyword::For) {
        let at = from + 1;
        if if_key(words, at, Keyword::Input) {
            return Ok(Read {
                value: Some(Part::Purpose(OpenFor::Input)),
                end: at + 1,
            });
        }
        return match take_key(words, at, Keyword::Output) {
            Ok(end) => Ok(Read {
                value: Some(Part::Purpose(OpenFor::Output)),
                end,
            }),
            Err(failure) => Err(failure),
        };
    }
    Ok(Read {
        value: Some(Part::Purpose(OpenFor::Either)),
        end: from,
    })
}

/// Reads the options of OPEN, as far as they are there.
#[tactic(auto)]
pub fn open_options(
    alloc: Global,
    words: &Words<'_>,
    from: usize,
    levels: usize,
) -> Result<Read<Option<Part>>, Failure>
    requires { from ≤ length words.now }
    ensures { PieceRead levels words.now from piece.OpenOptions result }
{
    let Read { value: found, end } = options(alloc, words, from, levels)?;
    Ok(Read {
        value: Some(Part::OpenOptions(found)),
        end,
    })
}

/// Reads the separator at a place, if there is one.
#[tactic(auto)]
pub fn perhaps_separator(
    words: &Words<'_>,
    from: usize,
    levels: usize,
) -> Result<Read<Option<Part>>, Failure>
    requires { from ≤ length words.now }
    ensures { PieceRead levels words.now from piece.PerhapsSeparator result }
{
    if if_sign(words, from, Sign::Comma) {
        return Ok(Read {
            value: Some(Part::PerhapsSeparator(Some(Separator::Comma))),
            end: from + 1,
        });
    }
    if if_sign(words, from, Sign::Semicolon) {
        return Ok(Read {
            value: Some(Part::PerhapsSeparator(Some(Separator::Semicolon))),
            end: from + 1,
        });
    }
    Ok(Read {
        value: Some(Part::PerhapsSeparator(None)),
        end: from,
    })
}
