//! The laws of reading histories. Each is the contract of a function with an empty body.

ghost use Rattle.history_reader.specs.ReadingLaw.{HistoryIsOne, WrongPlaceIsOne};

/// States that a text is that of one history.
pub fn history_is_one()
    ensures { HistoryIsOne }
{}

/// States that a text that is no history's goes wrong at one place.
#[tactic(auto, using(crate::proofs::HistoryLaws::wrong_place_is_one))]
pub fn wrong_place_is_one()
    ensures { WrongPlaceIsOne }
{}
