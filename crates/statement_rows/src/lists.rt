//! Pieces that are lists: each is a call of `elements`.

ghost use Rattle.std.specs.Prelude.{◌≤◌, length};
ghost use Rattle.statement_rows.specs.declared.piece.Piece.TheVariants as piece;
ghost use Rattle.statement_rows.specs.Pieces.{PieceRead};

use crate::part::Part;
use basic_expr::{Failure, Words};
use basic_tree::{CloseChannel, FieldPart, FileShape, Name, Shape, Target, Want};
use statement_lists::elements;
use statement_parts::Read;
use std::alloc::Global;

/// Reads one or more targets.
#[tactic(auto, using(statement_lists::proofs::ListSteps::listed))]
pub fn targets(
    alloc: Global,
    words: &Words<'_>,
    from: usize,
    levels: usize,
) -> Result<Read<Option<Part>>, Failure>
    requires { from ≤ length words.now }
    ensures { PieceRead levels words.now from piece.Targets result }
{
    let Read { value: found, end } = elements::<Target>(alloc, words, from, Want::Either, levels)?;
    Ok(Read {
        value: Some(Part::Targets(found)),
        end,
    })
}

/// Reads one or more channels.
#[tactic(auto, using(statement_lists::proofs::ListSteps::listed))]
pub fn channels(
    alloc: Global,
    words: &Words<'_>,
    from: usize,
    levels: usize,
) -> Result<Read<Option<Part>>, Failure>
    requires { from ≤ length words.now }
    ensures { PieceRead levels words.now from piece.Channels result }
{
    let Read { value: found, end } = elements::<CloseChannel>(
        alloc,
        words,
        from,
        Want::Number,
        levels,
    )?;
    Ok(Read {
        value: Some(Part::Channels(found)),
        end,
    })
}

/// Reads one or more parts of a record.
#[tactic(auto, using(statement_lists::proofs::ListSteps::listed))]
pub fn fields(
    alloc: Global,
    words: &Words<'_>,
    from: usize,
    levels: usize,
) -> Result<Read<Option<Part>>, Failure>
    requires { from ≤ length words.now }
    ensures { PieceRead levels words.now from piece.Fields result }
{
    let Read { value: found, end } = elements::<FieldPart>(
        alloc,
        words,
        from,
        Want::Number,
        levels,
    )?;
    Ok(Read {
        value: Some(Part::Fields(found)),
        end,
    })
}

/// Reads one or more line numbers.
#[tactic(auto, using(statement_lists::proofs::ListSteps::listed))]
pub fn lines(
    alloc: Global,
    words: &Words<'_>,
    from: usize,
    levels: usize,
) -> Result<Read<Option<Part>>, Failure>
    requires { from ≤ length words.now }
    ensures { PieceRead levels words.now from piece.Lines result }
{
    let Read { value: found, end } = elements::<u16>(alloc, words, from, Want::Number, levels)?;
    Ok(Read {
        value: Some(Part::Lines(found)),
        end,
    })
}

/// Reads one or more names of number arrays.
#[tactic(auto, using(statement_lists::proofs::ListSteps::listed))]
pub fn arrays(
    alloc: Global,
    words: &Words<'_>,
    from: usize,
    levels: usize,
) -> Result<Read<Option<Part>>, Failure>
    requires { from ≤ length words.now }
    ensures { PieceRead levels words.now from piece.Arrays result }
{
    let Read { value: found, end } = elements::<Name>(alloc, words, from, Want::Number, levels)?;
    Ok(Read {
        value: Some(Part::Arrays(found)),
        end,
    })
}

/// Reads one or more arrays with their bounds.
#[tactic(auto, using(statement_lists::proofs::ListSteps::listed))]
pub fn shapes(
    alloc: Global,
    words: &Words<'_>,
    from: usize,
    levels: usize,
) -> Result<Read<Option<Part>>, Failure>
    requires { from ≤ length words.now }
    ensures { PieceRead levels words.now from piece.Shapes result }
{
    let Read { value: found, end } = elements::<Shape>(alloc, words, from, Want::Either, levels)?;
    Ok(Read {
        value: Some(Part::Shapes(found)),
        end,
    })
}

/// Reads one or more arrays of a file.
#[tactic(auto, using(statement_lists::proofs::ListSteps::listed))]
pub fn file_shapes(
    alloc: Global,
    words: &Words<'_>,
    from: usize,
    levels: usize,
) -> Result<Read<Option<Part>>, Failure>
    requires { from ≤ length words.now }
    ensures { PieceRead levels words.now from piece.FileShapes result }
{
    let Read { value: found, end } = elements::<FileShape>(
        alloc,
        words,
        from,
        Want::Either,
        levels,
    )?;
    Ok(Read {
        value: Some(Part::FileShapes(found)),
        end,
    })
}
