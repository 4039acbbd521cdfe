//! Laws about the definitions of this crate. Each is the contract of a function with an empty body.

ghost use Rattle.basic_strings.specs.Laws.{PairsGiveBack, ReadingGivesBack, ReadingSkipsBlanks};
ghost use Rattle.basic_strings.specs.Laws.{CutsLoseNothing, PlaceIsLeast};

/// States that `number_of` returns the number that `text_of` was given.
pub fn pairs_give_back()
    ensures { PairsGiveBack }
{}

/// States that `val` returns the number that `num1` was given.
pub fn reading_gives_back()
    ensures { ReadingGivesBack }
{}

/// States that `val` returns the number that `num` was given.
pub fn reading_skips_blanks()
    ensures { ReadingSkipsBlanks }
{}

/// States that `left` up to a place and `right` from the next place split a string in two and lose
/// nothing.
pub fn cuts_lose_nothing()
    ensures { CutsLoseNothing }
{}

/// States that `instr` returns the least place, or 0 if there is none.
pub fn place_is_least()
    ensures { PlaceIsLeast }
{}
