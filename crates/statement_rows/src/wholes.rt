//! Pieces of several parts that belong together.

ghost use Rattle.std.specs.Prelude.{◌≤◌, length};
ghost use Rattle.statement_rows.specs.declared.piece.Piece.TheVariants as piece;
ghost use Rattle.statement_rows.specs.Pieces.{PieceRead};

use crate::part::Part;
use basic_expr::{Failure, Words};
use statement_lists::assignment;
use statement_parts::{Read, all_items, range};
use std::alloc::Global;

/// Reads the variable of a loop and the values that it takes.
#[tactic(auto)]
pub fn looped(
    alloc: Global,
    words: &Words<'_>,
    from: usize,
    levels: usize,
) -> Result<Read<Option<Part>>, Failure>
    requires { from ≤ length words.now }
    ensures { PieceRead levels words.now from piece.Range result }
{
    let Read { value: found, end } = range(alloc, words, from, levels)?;
    Ok(Read {
        value: Some(Part::Range(found)),
        end,
    })
}

/// Reads targets and their value.
#[tactic(auto)]
pub fn assigned(
    alloc: Global,
    words: &Words<'_>,
    from: usize,
    levels: usize,
) -> Result<Read<Option<Part>>, Failure>
    requires { from ≤ length words.now }
    ensures { PieceRead levels words.now from piece.Assigned result }
{
    let Read { value: found, end } = assignment(alloc, words, from, levels)?;
    Ok(Read {
        value: Some(Part::Assigned(found)),
        end,
    })
}

/// Reads one or more items of DATA.
#[tactic(auto)]
pub fn items(
    alloc: Global,
    words: &Words<'_>,
    from: usize,
    levels: usize,
) -> Result<Read<Option<Part>>, Failure>
    requires { from ≤ length words.now }
    ensures { PieceRead levels words.now from piece.Items result }
{
    let Read { value: found, end } = all_items(alloc, words, from)?;
    Ok(Read {
        value: Some(Part::Items(found)),
        end,
    })
}
