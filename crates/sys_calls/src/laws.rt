//! Laws about the table. Each is the contract of a function with an empty body.

ghost use Rattle.sys_calls.specs.Laws.{SaysOneCall, GivesOneText, FindsWhatIsSaid, GivesWhatIsTold};

/// States that a string is at most one call.
#[tactic(auto, using(crate::proofs::TableLaws::says_one_call))]
pub fn says_one_call()
    ensures { SaysOneCall }
{}

/// States that a reply becomes one string.
#[tactic(auto, using(crate::proofs::TableLaws::gives_one_text))]
pub fn gives_one_text()
    ensures { GivesOneText }
{}

/// States that reading a string from its start finds a call exactly if the table has it.
#[tactic(auto, using(crate::proofs::TableLaws::finds_what_is_said))]
pub fn finds_what_is_said()
    ensures { FindsWhatIsSaid }
{}

/// States that the function that encodes a reply gives the string of the table.
#[tactic(auto, using(crate::proofs::TableLaws::gives_what_is_told))]
pub fn gives_what_is_told()
    ensures { GivesWhatIsTold }
{}
