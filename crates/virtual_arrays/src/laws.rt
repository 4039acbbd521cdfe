//! A law about the definitions of this crate: the contract of a function with an empty body.

ghost use Rattle.virtual_arrays.specs.Laws.{ElementsLieInBlocks};

/// States that each element of an array that a DIM # declares is in one block of its file.
pub fn elements_lie_in_blocks()
    ensures { ElementsLieInBlocks }
{}
