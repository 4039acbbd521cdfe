//! The function that reads any table entry.

ghost use Rattle.std.specs.Prelude.{◌≡◌, ℕ, [], ◌+◌, ◌<◌, ◌≤◌, length, option_map};
ghost use Rattle.statement_rows.specs.Pieces.{PieceAdded, PieceRead, RowRead};
ghost use Rattle.statement_rows.specs.Slots.{slots_of};

use crate::lists::{arrays, channels, fields, file_shapes, lines, shapes, targets};
use crate::matrices::matrix;
use crate::optional::{
    either, mark, open_options, perhaps_channel, perhaps_line, perhaps_number, perhaps_separator,
    purpose,
};
use crate::part::Part;
use crate::piece::Piece;
use crate::singles::{bound, key, line, sign, value, variable};
use crate::slots::Slots;
use crate::source::source;
use crate::wholes::{assigned, items, looped};
use basic_expr::{Failure, Words};
use statement_parts::Read;
use std::alloc::Global;

/// Reads a piece at a place.
#[tactic(auto)]
fn read_piece(
    alloc: Global,
    words: &Words<'_>,
    from: usize,
    piece: Piece,
    levels: usize,
) -> Result<Read<Option<Part>>, Failure>
    requires { from ≤ length words.now }
    ensures { PieceRead levels words.now from piece result }
{
    match piece {
        Piece::Key(word) => key(words, from, word, levels),
        Piece::Sign(mark) => sign(words, from, mark, levels),
        Piece::Either(first, second) => either(words, from, first, second, levels),
        Piece::Mark(sign) => mark(words, from, sign, levels),
        Piece::Value(want) => value(alloc, words, from, want, levels),
        Piece::Option(key) => perhaps_number(alloc, words, from, key, levels),
        Piece::PerhapsChannel => perhaps_channel(alloc, words, from, levels),
        Piece::Variable(want) => variable(words, from, want, levels),
        Piece::Line => line(words, from, levels),
        Piece::PerhapsLine => perhaps_line(words, from, levels),
        Piece::Bound => bound(words, from, levels),
        Piece::Purpose => purpose(words, from, levels),
        Piece::OpenOptions => open_options(alloc, words, from, levels),
        Piece::Source => source(alloc, words, from, levels),
        Piece::PerhapsSeparator => perhaps_separator(words, from, levels),
        Piece::Matrix => matrix(alloc, words, from, levels),
        Piece::Range => looped(alloc, words, from, levels),
        Piece::Assigned => assigned(alloc, words, from, levels),
        Piece::Targets => targets(alloc, words, from, levels),
        Piece::Channels => channels(alloc, words, from, levels),
        Piece::Fields => fields(alloc, words, from, levels),
        Piece::Lines => lines(alloc, words, from, levels),
        Piece::Items => items(alloc, words, from, levels),
        Piece::Arrays => arrays(alloc, words, from, levels),
        Piece::Shapes => shapes(alloc, words, from, levels),
        Piece::FileShapes => file_shapes(alloc, words, from, levels),
    }
}

/// Reads a piece, adds what it gives to what was read, and returns the place after it.
// Not a part of `row`, and with a `match` in place of `?`: the type of what a piece gives is large,
// and a loop over it is slow to prove.
#[tactic(auto, using(crate::proofs::RowSteps::adding))]
fn add_piece(
    alloc: Global,
    words: &Words<'_>,
    from: usize,
    piece: Piece,
    levels: usize,
    slots: &mut Slots,
) -> Result<usize, Failure>
    requires { from ≤ length words.now }
    ensures { PieceAdded levels words.now from piece (slots_of slots.old) (slots_of slots.new)
        result }
{
    match read_piece(alloc, words, from, piece, levels) {
        Ok(Read { value: part, end }) => {
            slots.add(part)?;
            Ok(end)
        }
        Err(failure) => Err(failure),
    }
}

/// Reads the pieces of a table entry from a place on.
#[tactic(auto, using(crate::proofs::RowSteps::reading))]
pub fn row(
    alloc: Global,
    words: &Words<'_>,
    from: usize,
    row: &[Piece],
    levels: usize,
) -> Result<Read<Slots>, Failure>
    requires { from ≤ length words.now }
    ensures { RowRead levels words.now from row.now result }
{
    let mut end = from;
    let mut slots = Slots::new(alloc);
    'pieces: for next in row {
        end = add_piece(alloc, words, end, *next, levels, &mut slots)?;
    }
    Ok(Read { value: slots, end })
}
