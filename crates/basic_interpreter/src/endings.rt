//! Reports at a terminal. Each begins at the start of a line.

ghost use Rattle.std.specs.Prelude.{◌≡◌, ◌++◌, OnOk};
ghost use Rattle.basic_eval.specs.Acting.{break_of, seen};
ghost use Rattle.job_model.specs.Texts.{line_end};
ghost use Rattle.program_model.specs.Reports.{Failure, Stop, UsedUp};
ghost use Rattle.program_model.specs.Reports.{at_line_text, ended_screen, with_report};

use basic_eval::{Exit, Running};
use basic_values::NoMemory;
use itoa::Buffer;
use terminal_line::Screen;

/// Reports why a program or an immediate line ended. END and CHAIN are not reported.
pub fn write_ending(state: &mut Running, why: Exit) -> Result<(), NoMemory>
    ensures { OnOk result (seen state.new
        ≡ record (seen state.old) { screen = ended_screen (break_of why) (seen state.old) }) }
{
    let line = state.line;
    match why {
        Exit::Fault(fault) => write_failure(&mut state.screen, fault.text(), line),
        Exit::Halt(halt) => write_failure(&mut state.screen, halt.text(), line),
        Exit::Gone => write_used_up(&mut state.screen),
        Exit::Ended => Ok(()),
        Exit::Stopped(_) => write_stop(&mut state.screen, line),
        Exit::StoppedInside(_) => write_stop(&mut state.screen, line),
        Exit::Chained => Ok(()),
    }
}

/// Reports an error, a halt or a rejected program: its words, and its line unless that is 0.
pub fn write_failure(screen: &mut Screen, words: &[u8], line: u16) -> Result<(), NoMemory>
    ensures { OnOk result (screen.new ≡ with_report (Failure words.now line) screen.old) }
{
    screen.begin_line(b"?")?;
    screen.write(words)?;
    end_line(screen, line)
}

/// Reports a STOP in this line.
fn write_stop(screen: &mut Screen, line: u16) -> Result<(), NoMemory>
    ensures { OnOk result (screen.new ≡ with_report (Stop line) screen.old) }
{
    screen.begin_line(b"Stop")?;
    end_line(screen, line)
}

/// Reports that the job's calls are used up.
pub fn write_used_up(screen: &mut Screen) -> Result<(), NoMemory>
    ensures { OnOk result (screen.new ≡ with_report UsedUp screen.old) }
{
    screen.begin_line(b"?Job expired\r\n")
}

/// Ends a report: writes its line, unless that is 0, with CR and LF.
fn end_line(screen: &mut Screen, line: u16) -> Result<(), NoMemory>
    ensures { OnOk result (screen.new ≡ screen.old ++ (at_line_text line ++ line_end)) }
{
    write_line(screen, line)?;
    screen.write(b"\r\n")
}

fn write_line(screen: &mut Screen, line: u16) -> Result<(), NoMemory>
    ensures { OnOk result (screen.new ≡ screen.old ++ at_line_text line) }
{
    if line == 0 {
        return Ok(());
    }
    screen.write(b" at line ")?;
    screen.write(Buffer::new().format(line).as_bytes())
}
