//! Laws over the definitions. They compute nothing.

ghost use Rattle.deck_model.specs.DiskTexts.{VolumeIsSpelled, VolumeIsShort};
ghost use Rattle.deck_model.specs.Laws.{OneDeck, OneRefusal, NeverBoth, QuotasTellNothing};

/// Promises that the same bytes spell one deck, or are rejected at one line for one cause, and
/// never both.
pub fn one_verdict()
    ensures one_deck { OneDeck }
    ensures one_refusal { OneRefusal }
    ensures never_both { NeverBoth }
{}

/// Promises that in version 1 no file is rejected for a quota alone.
pub fn version_one()
    ensures { QuotasTellNothing }
{}

/// Promises that the text of a good volume spells the deck of that volume, with terminals at which
/// nothing is typed, and that it is no longer than such a deck may be.
pub fn round_trip()
    ensures spelled { VolumeIsSpelled }
    ensures short { VolumeIsShort }
{}
