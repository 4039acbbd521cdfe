//! What a replay does: a deck is read, and the history after it is checked again on one thread.

ghost use Rattle.std.specs.Prelude.{◌≡◌, ◌+◌, ◌<◌, ◌≤◌, ◌^◌, length};
ghost use Rattle.deck_model.specs.Deck.{IsDeck};
ghost use Rattle.deck_reader.specs.Seen.{deck_of};
ghost use Rattle.time_sharing.specs.TwoEnds.{ends};
ghost use Rattle.time_sharing.specs.Replays.{Replays};
ghost use Rattle.time_sharing.specs.InputEnds.{entry_of, fault_of, fault_failure, RetellsBy};
ghost use Rattle.time_sharing.specs.InputEnds.{ToldBy};

use crate::inputs::divided;
use crate::outcomes::{Failure, HistoryCause, HistoryFault};
use crate::runs::replay_deck;
use basic_values::{Series, Trouble};
use deck_model::DeckFault;
use deck_reader::{Deck, read_deck};
use history_reader::read_history;
use history_replay::Dispute;
use monitor_calls::RunRecord;
use report_texts::report;
use rsts_io::{REPLAY_LIMIT, ReadEnd, Sink, SinkFault, Source, give_all, read_all};
use std::alloc::Global;

/// Why an input has no run: the fault of its deck, or of the history after it.
#[derive(Clone, Copy, PartialEq, Eq)]
pub(crate) enum InputFault {
    Deck(DeckFault),
    History(HistoryFault),
}

impl InputFault {
    fn failure(self) -> Failure
        ensures { result ≡ fault_failure self }
    {
        match self {
            InputFault::Deck(fault) => Failure::Deck(fault),
            InputFault::History(fault) => Failure::History(fault),
        }
    }
}

/// Reads a deck and a history after it, checks that a run of the deck has that history, and writes
/// its report, as the word `replay` asks.
pub fn replay_system<S: Source, K: Sink>(
    alloc: Global,
    source: &mut S,
    sink: &mut K,
) -> Result<RunRecord, Failure>
    ensures { Replays (ends (S.state source.old) (K.state sink.old))
        (ends (S.state source.new) (K.state sink.new)) result }
{
    let input = match read_all(alloc, source, REPLAY_LIMIT) {
        Ok(input) => input,
        Err(ReadEnd::Fault) => return Err(Failure::ReadFault),
        Err(ReadEnd::TooLong) => return Err(Failure::TooLong),
        Err(ReadEnd::NoMemory) => return Err(Failure::NoMemory),
    };
    let (record, output) = match run_told(alloc, input.as_slice()) {
        Ok(told) => told,
        Err(Trouble::Refused(fault)) => return Err(fault.failure()),
        Err(Trouble::NoMemory) => return Err(Failure::NoMemory),
    };
    match give_all(sink, output.as_slice()) {
        Ok(()) => Ok(record),
        Err(SinkFault) => Err(Failure::WriteFault),
    }
}

/// Returns the run in an input, and its report, or why there is none.
fn run_told(alloc: Global, input: &[u8]) -> Result<(RunRecord, Vec<u8>), Trouble<InputFault>>
    requires { length input.now ≤ 268435456 }
    ensures { ToldBy input.now result }
{
    let cut = divided(input);
    let deck = match read_deck(alloc, cut.part) {
        Ok(deck) => deck,
        Err(Trouble::Refused(fault)) => return Err(Trouble::Refused(InputFault::Deck(fault))),
        Err(Trouble::NoMemory) => return Err(Trouble::NoMemory),
    };
    match run_behind(alloc, deck, cut.text, cut.lines + 1) {
        Ok(told) => Ok(told),
        Err(Trouble::Refused(fault)) => Err(Trouble::Refused(InputFault::History(fault))),
        Err(Trouble::NoMemory) => Err(Trouble::NoMemory),
    }
}

/// Returns the run of a deck in a text, and its report, or the line at which the text fails. The
/// text's first line has this number.
fn run_behind(
    alloc: Global,
    deck: Deck,
    text: &[u8],
    first: u32,
) -> Result<(RunRecord, Vec<u8>), Trouble<HistoryFault>>
    requires deck { IsDeck (deck_of deck) }
    requires lines { first + 1 + length text.now < 2 ^ 32 }
    ensures { RetellsBy (deck_of deck) text.now first result }
{
    let history = match read_history(alloc, text) {
        Ok(history) => history,
        Err(Trouble::Refused(good)) => {
            let line = first + good as u32;
            return Err(Trouble::Refused(HistoryFault {
                line,
                cause: HistoryCause::Form,
            }));
        }
        Err(Trouble::NoMemory) => return Err(Trouble::NoMemory),
    };
    let (terminals, screens) = match replay_deck(alloc, deck, history.as_slice()) {
        Ok(told) => told,
        Err(Trouble::Refused(why)) => return Err(Trouble::Refused(fault_of(first, why))),
        Err(Trouble::NoMemory) => return Err(Trouble::NoMemory),
    };
    let output = report(alloc, terminals.as_slice(), screens.as_slice())?;
    Ok((Series::from_vec(history), output))
}

/// Returns the fault of a dispute over a history, if its text's first line has this number.
fn fault_of(first: u32, why: Dispute) -> HistoryFault
    requires { first + 1 + entry_of why < 2 ^ 32 }
    ensures { result ≡ fault_of first why }
{
    match why {
        Dispute::Reply { entry } => HistoryFault {
            line: first + 1 + entry as u32,
            cause: HistoryCause::Reply,
        },
        Dispute::Meaning { entry, .. } => HistoryFault {
            line: first + 1 + entry as u32,
            cause: HistoryCause::Meaning,
        },
    }
}
