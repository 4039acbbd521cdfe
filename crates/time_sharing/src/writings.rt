//! What is written of a run: its report, the text of its history, what the printer printed.

ghost use Rattle.std.specs.Prelude.{◌≡◌, ◌++◌, length, IfOk, OnOk};
ghost use Rattle.deck_model.specs.Histories.{history_text};
ghost use Rattle.print_spool.specs.Printed.{AreNamed, printed_text};
ghost use Rattle.report_texts.specs.Names.{names_of};
ghost use Rattle.time_sharing.specs.Headline.{where_wanted};
ghost use Rattle.time_sharing.specs.Written.{output_by};

use basic_values::NoMemory;
use deck_reader::Terminal;
use monitor_calls::{Entry, TerminalName};
use print_spool::printed;
use program_words::Wanted;
use report_texts::{push_history, report};
use std::alloc::Global;
use terminal_runner::{BatchKeyboard, RunEnd};

/// Returns what is written of a run of these terminals.
pub(crate) fn written(
    alloc: Global,
    wanted: Wanted,
    terminals: &[Terminal],
    ran: &RunEnd<BatchKeyboard>,
) -> Result<Vec<u8>, NoMemory>
    requires as_many { length ran.now.screens.items ≡ length terminals.now }
    requires named { AreNamed (names_of terminals.now) ran.now.run }
    ensures { IfOk result (λ output. output.items
        ≡ output_by wanted (names_of terminals.now) ran.now.run ran.now.screens.items) }
{
    let history = ran.run.as_slice();
    let mut output = report(alloc, terminals, ran.screens.as_slice())?;
    push_wanted_history(&mut output, wanted.history, history)?;
    push_wanted_listings(alloc, &mut output, wanted.printer, terminals, history)?;
    Ok(output)
}

/// Writes the text of a history, if it is asked for.
fn push_wanted_history(
    output: &mut Vec<u8>,
    wanted: bool,
    history: &[Entry],
) -> Result<(), NoMemory>
    ensures { OnOk result (output.new.items
        ≡ output.old.items ++ where_wanted wanted (history_text history.now)) }
{
    if !wanted {
        return Ok(());
    }
    push_history(output, history)
}

/// Writes what the printer printed in a history, if it is asked for. Each job is that of the
/// terminal at its place.
fn push_wanted_listings(
    alloc: Global,
    output: &mut Vec<u8>,
    wanted: bool,
    terminals: &[Terminal],
    history: &[Entry],
) -> Result<(), NoMemory>
    requires { AreNamed (names_of terminals.now) history.now }
    ensures { OnOk result (output.new.items ≡ output.old.items
        ++ where_wanted wanted (printed_text (names_of terminals.now) history.now)) }
{
    if !wanted {
        return Ok(());
    }
    let names = names_of(alloc, terminals)?;
    let text = printed(alloc, names.as_slice(), history)?;
    Ok(output.extend_from_slice(text.as_slice())?)
}

/// Returns the names of terminals.
fn names_of(alloc: Global, terminals: &[Terminal]) -> Result<Vec<TerminalName>, NoMemory>
    ensures { IfOk result (λ names. names.items ≡ names_of terminals.now) }
{
    let mut names = Vec::new(alloc);
    for terminal in terminals {
        names.push(copy_of(&terminal.name))?;
    }
    Ok(names)
}

/// Returns a copy of a name.
fn copy_of(name: &TerminalName) -> TerminalName
    ensures { result ≡ name.now }
{
    TerminalName::of(name.as_bytes()).unwrap()
}
