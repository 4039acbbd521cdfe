//! What a run writes.

ghost use Rattle.std.specs.Prelude.{◌≡◌, ◌++◌, length, map, IfOk, OnOk};
ghost use Rattle.deck_model.specs.Report.{terminal_report, report, good_line};
ghost use Rattle.report_texts.specs.Names.{names_of};

use basic_values::NoMemory;
use deck_reader::Terminal;
use itoa::Buffer;
use monitor_calls::{Screen2, TerminalName};
use std::alloc::Global;

/// Returns the report of a run: each terminal's name, the number of bytes on its screen, and the
/// screen.
pub fn report(
    alloc: Global,
    terminals: &[Terminal],
    screens: &[Screen2],
) -> Result<Vec<u8>, NoMemory>
    requires { length screens.now ≡ length terminals.now }
    ensures { IfOk result (λ bytes. bytes.items ≡ report (names_of terminals.now) screens.now) }
{
    let mut out = Vec::new(alloc);
    for (i, terminal) in terminals.iter().enumerate() {
        push_report(&mut out, &terminal.name, &screens[i])?;
    }
    Ok(out)
}

fn push_report(out: &mut Vec<u8>, name: &TerminalName, screen: &Screen2) -> Result<(), NoMemory>
    ensures { OnOk result (out.new.items ≡ out.old.items ++ terminal_report name.now screen.now) }
{
    let bytes = screen.as_slice();
    let mut buffer = Buffer::new();
    out.extend_from_slice(b"TERMINAL ")?;
    out.extend_from_slice(name.as_bytes())?;
    out.push(b' ')?;
    out.extend_from_slice(buffer.format(bytes.len()).as_bytes())?;
    out.push(b'\n')?;
    out.extend_from_slice(bytes)?;
    Ok(out.push(b'\n')?)
}

/// Returns what a check of a good deck writes.
pub fn good_line(
    alloc: Global,
    accounts: usize,
    files: usize,
    terminals: usize,
) -> Result<Vec<u8>, NoMemory>
    ensures { IfOk result (λ bytes. bytes.items ≡ good_line accounts files terminals) }
{
    let mut out = Vec::new(alloc);
    let mut buffer = Buffer::new();
    out.extend_from_slice(b"GOOD ")?;
    out.extend_from_slice(buffer.format(accounts).as_bytes())?;
    out.push(b' ')?;
    out.extend_from_slice(buffer.format(files).as_bytes())?;
    out.push(b' ')?;
    out.extend_from_slice(buffer.format(terminals).as_bytes())?;
    out.push(b'\n')?;
    Ok(out)
}
