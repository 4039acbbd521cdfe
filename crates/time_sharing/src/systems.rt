//! What a run and a check do: they read a deck, and write what they have to say of it.

ghost use Rattle.std.specs.Prelude.{IfOk};
ghost use Rattle.deck_model.specs.Deck.{IsDeck};
ghost use Rattle.deck_reader.specs.Seen.{deck_of};
ghost use Rattle.time_sharing.specs.Headline.{Reports, Runs, Checks, SpellsDeck, Refuses};
ghost use Rattle.time_sharing.specs.SourceEnds.{FoundInSource};
ghost use Rattle.time_sharing.specs.TwoEnds.{ends, OkOrLacked, EndsTooLong};

use crate::outcomes::Failure;
use crate::runs::run_deck;
use crate::writings::written;
use basic_values::{NoMemory, Trouble};
use deck_reader::{Deck, read_deck};
use monitor_calls::RunRecord;
use program_words::Wanted;
use report_texts::good_line;
use rsts_io::{INPUT_LIMIT, ReadEnd, Sink, SinkFault, Source, give_all, read_all};
use std::alloc::Global;
use std::sync::Wait;
use std::thread::Threads;
use terminal_runner::Pacer;

/// Runs the terminals of the deck that the source spells and writes what is asked of the run, as
/// the word `run` asks.
pub(crate) fn run_system<R: Threads + Wait + Sync, S: Source, K: Sink, P: Pacer + Sync>(
    rt: &R,
    alloc: Global,
    wanted: Wanted,
    source: &mut S,
    sink: &mut K,
    pacer: &P,
) -> Result<RunRecord, Failure>
    ensures { Runs wanted (ends (S.state source.old) (K.state sink.old))
        (ends (S.state source.new) (K.state sink.new)) result }
{
    let deck = match read_system(alloc, source) {
        Ok(deck) => deck,
        Err(failure) => return Err(failure),
    };
    let (record, output) = match run_and_report(rt, alloc, wanted, deck, pacer) {
        Ok(ran) => ran,
        Err(NoMemory) => return Err(Failure::NoMemory),
    };
    match give_all(sink, output.as_slice()) {
        Ok(()) => Ok(record),
        Err(SinkFault) => Err(Failure::WriteFault),
    }
}

/// Reads a deck and writes `GOOD`, the numbers of its accounts, files and terminals, as the word
/// `check` asks.
pub fn check_system<S: Source, K: Sink>(
    alloc: Global,
    source: &mut S,
    sink: &mut K,
) -> Result<(), Failure>
    ensures { Checks (ends (S.state source.old) (K.state sink.old))
        (ends (S.state source.new) (K.state sink.new)) result }
{
    let deck = match read_system(alloc, source) {
        Ok(deck) => deck,
        Err(failure) => return Err(failure),
    };
    let volume = &deck.volume;
    let (accounts, files) = (volume.accounts.len(), volume.files.len());
    let output = match good_line(alloc, accounts, files, deck.terminals.len()) {
        Ok(output) => output,
        Err(NoMemory) => return Err(Failure::NoMemory),
    };
    match give_all(sink, output.as_slice()) {
        Ok(()) => Ok(()),
        Err(SinkFault) => Err(Failure::WriteFault),
    }
}

/// Reads the deck that the source spells, to its end.
fn read_system<S: Source>(alloc: Global, source: &mut S) -> Result<Deck, Failure>
    ensures found { FoundInSource result (S.state source.old) (S.state source.new) }
    ensures must_stop { EndsTooLong INPUT_LIMIT (S.state source.old) (S.state source.new) result }
    ensures must_find { SpellsDeck (S.state source.old) (S.state source.new) → OkOrLacked result }
    ensures must_refuse { Refuses (S.state source.old) (S.state source.new) result }
{
    let bytes = match read_all(alloc, source, INPUT_LIMIT) {
        Ok(bytes) => bytes,
        Err(ReadEnd::Fault) => return Err(Failure::ReadFault),
        Err(ReadEnd::TooLong) => return Err(Failure::TooLong),
        Err(ReadEnd::NoMemory) => return Err(Failure::NoMemory),
    };
    match read_deck(alloc, bytes.as_slice()) {
        Ok(deck) => Ok(deck),
        Err(Trouble::Refused(fault)) => Err(Failure::Deck(fault)),
        Err(Trouble::NoMemory) => Err(Failure::NoMemory),
    }
}

/// Runs the deck, and returns what is written of the run.
fn run_and_report<R: Threads + Wait + Sync, P: Pacer + Sync>(
    rt: &R,
    alloc: Global,
    wanted: Wanted,
    deck: Deck,
    pacer: &P,
) -> Result<(RunRecord, Vec<u8>), NoMemory>
    requires { IsDeck (deck_of deck) }
    ensures { IfOk result (λ ran. Reports wanted (deck_of deck) ran.0 ran.1.items) }
{
    let (terminals, ran) = run_deck(rt, alloc, deck, pacer)?;
    let output = written(alloc, wanted, terminals.as_slice(), &ran)?;
    Ok((ran.run, output))
}
