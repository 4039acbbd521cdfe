//! The words as one flat command of `clap` takes them.

ghost use Rattle.std.specs.Prelude.{◌≡◌, None, IfOk, map, string_bytes};
ghost use Rattle.clap.specs.Words.{app_of};
ghost use Rattle.program_words.specs.Words.{said};
ghost use Rattle.program_words.specs.CommandLine.{command_app, said_option};

use crate::words::Wanted;
use basic_values::NoMemory;
use clap::error::ErrorKind;
use clap::{Arg, ArgAction, Command};
use std::alloc::{AllocError, Global};

/// An action, a count after it if there is one, and what the flags ask for.
#[derive(Clone, Copy)]
pub(crate) struct Said<'a> {
    pub(crate) action: &'a str,
    pub(crate) count: Option<&'a str>,
    pub(crate) wanted: Wanted,
}

/// Returns one flat command without help and version.
fn command<'a>(alloc: Global) -> Result<Command<'a>, AllocError>
    ensures { IfOk result (λ command. app_of command ≡ command_app) }
{
    let action = Arg::new(alloc, "action").required(true);
    let count = Arg::new(alloc, "count");
    let history = Arg::new(alloc, "history")
        .long("history")
        .action(ArgAction::SetTrue);
    let printer = Arg::new(alloc, "printer")
        .long("printer")
        .action(ArgAction::SetTrue);
    Command::new(alloc, "rsts")
        .no_binary_name(true)
        .disable_help_flag(true)
        .disable_version_flag(true)
        .arg(action)?
        .arg(count)?
        .arg(history)?
        .arg(printer)
}

/// Returns nothing for words that the command rejects, or an error if memory ran out.
fn refused<'a>(kind: ErrorKind) -> Result<Option<Said<'a>>, NoMemory>
    ensures nothing { IfOk result (λ told. told ≡ None) }
    ensures other { IfOk result (λ _. kind ≡ ErrorKind.OutOfMemory → ⊥) }
{
    if kind == ErrorKind::OutOfMemory {
        Err(NoMemory)
    } else {
        Ok(None)
    }
}

/// Returns what the words say, and nothing if the command rejects them.
pub(crate) fn said_by(alloc: Global, words: &[String]) -> Result<Option<Said<'_>>, NoMemory>
    ensures { IfOk result (λ told. said_option told ≡ said (map string_bytes words.now)) }
{
    let matches = match command(alloc)?.try_get_matches_from(words) {
        Ok(matches) => matches,
        Err(error) => return refused(error.kind()),
    };
    match matches.get_str("action") {
        Some(action) => Ok(Some(Said {
            action,
            count: matches.get_str("count"),
            wanted: Wanted {
                history: matches.get_flag("history"),
                printer: matches.get_flag("printer"),
            },
        })),
        None => Ok(None),
    }
}
