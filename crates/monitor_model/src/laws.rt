//! Laws over the definitions, each a function whose contract is the law.

ghost use Rattle.monitor_model.specs.Laws.{OpeningIsGood, OpeningIsUnopened};
ghost use Rattle.monitor_model.specs.Laws.{AnswerKeepsGood, AnswerKeepsJobs};
ghost use Rattle.monitor_model.specs.Laws.{AccountsStay, ClosingIsVolume};
ghost use Rattle.monitor_model.specs.Laws.{HeldInSpans, RefusedInSpans, RefusedInSpansOnly};
ghost use Rattle.monitor_model.specs.Laws.{NobodyWritesBetween, WritesOverWhatItRead};
ghost use Rattle.monitor_model.specs.Laws.{SafeUpdatesAreAChain, SafeIfHeld};
ghost use Rattle.monitor_model.specs.Laws.{SafeUpdatesCount, CountersAreSafe};
ghost use Rattle.monitor_model.specs.Laws.{RightsOfOpened, RefusedByRights};
ghost use Rattle.monitor_model.specs.Laws.{PrintsAlone, PrintsInListing, ListingsAreAll};
ghost use Rattle.monitor_model.specs.Laws.{RefusedByPrinter};
ghost use Rattle.monitor_model.specs.Laws.{MaskedTellsTheSame, MaskedIsProper, MaskedCase};

/// States that a good volume opens with a good state.
pub fn opening_is_good()
    ensures { OpeningIsGood }
{}

/// States that in the state that a volume opens with no channel is open and no block is held.
pub fn opening_is_unopened()
    ensures { OpeningIsUnopened }
{}

/// States that a good state stays good, whatever a job asks.
pub fn answer_keeps_good()
    ensures { AnswerKeepsGood }
{}

/// States that no call changes which jobs there are.
pub fn answer_keeps_jobs()
    ensures { AnswerKeepsJobs }
{}

/// States that the next run can open the disk that a run leaves. No call changes the accounts or
/// the number of blocks. From a good volume whose pages have 512 bytes each, the accounts, blocks
/// and files after any proper history are such a volume again.
pub fn closing()
    ensures accounts { AccountsStay }
    ensures volume { ClosingIsVolume }
{}

/// States what a locked block means. From the call that read its page through a channel for update,
/// up to the call that frees the block, the channel holds it and its bytes stay. The monitor
/// refuses each admissible call of another channel on it with 19, and no other call gets 19.
pub fn exclusion()
    ensures held { HeldInSpans }
    ensures refused { RefusedInSpans }
    ensures only { RefusedInSpansOnly }
{}

/// States that no update is lost. Suppose that a channel that is open for update reads a block and
/// then writes it without releasing it in between. No other call wrote the block meanwhile, so it
/// writes over the page that it read. If a block is written by such updates alone, each was
/// computed from the page of the one before it. A write is such an update exactly if its channel
/// holds the block. If each update takes the number in the page one step on, the last page is as
/// many steps on as there are updates. All writes are safe if each job asks only what a job that
/// counts in the block may ask.
pub fn safe_updates()
    ensures between { NobodyWritesBetween }
    ensures over { WritesOverWhatItRead }
    ensures chain { SafeUpdatesAreAChain }
    ensures held { SafeIfHeld }
    ensures count { SafeUpdatesCount }
    ensures jobs { CountersAreSafe }
{}

/// States where the rights of an open channel come from. The call that opened it determines them:
/// it gets what the file's code left the caller then, or both rights if the caller made the file,
/// or made it anew. Error 10 comes exactly if it is the number of the first test that holds in the
/// call's table entry.
pub fn rights()
    ensures opened { RightsOfOpened }
    ensures ten { RefusedByRights }
{}

/// States who has the printer. While a job prints a print job, no other job begins one, prints, or
/// gets the printer assigned. A job that prints has begun a print job. The print jobs, joined, are
/// all that is printed. A job that asks for the printer is refused with 8 exactly if another job
/// has it.
pub fn printing()
    ensures alone { PrintsAlone }
    ensures begun { PrintsInListing }
    ensures joined { ListingsAreAll }
    ensures eight { RefusedByPrinter }
{}

/// States what of a history is hidden from an account, in a run in which no call is refused because
/// the disk or a quota has no space left. All that is done to the blocks of names that the account
/// is denied throughout is hidden. Consider the history without it, in which each read, write and
/// Unlock there is a Tick. It is legal, and gives the account the same replies. If the numbers and
/// strings of the history are in the ranges of their types, so are those of this one. There are
/// such histories.
pub fn masking()
    ensures same { MaskedTellsTheSame }
    ensures proper { MaskedIsProper }
    ensures met { MaskedCase }
{}
