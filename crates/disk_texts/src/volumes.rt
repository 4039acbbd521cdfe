//! The lines of a volume.

ghost use Rattle.std.specs.Prelude.{◌≡◌, ◌++◌, ◌∷◌, [], map, codes, OnOk};
ghost use Rattle.std.specs.List.{flat_map};
ghost use Rattle.std.specs.Fmt.{decimal};
ghost use Rattle.deck_model.specs.declared.versions.Version.TheVariants.{Three};
ghost use Rattle.deck_model.specs.Spelling.{account_line, terminal_lines};
ghost use Rattle.deck_model.specs.DiskTexts.{keyless, text_of_lines, volume_text};

use crate::files::{push_files, push_numbers};
use basic_values::NoMemory;
use itoa::Buffer;
use monitor_calls::{AccountEntry, TerminalName, Volume};

/// Appends a volume as a deck of version 3, with terminals of these names at which nothing is
/// typed. If memory runs out, a part of it may have been appended.
pub fn push_volume(
    out: &mut Vec<u8>,
    volume: &Volume,
    names: &[TerminalName],
) -> Result<(), NoMemory>
    ensures { OnOk result (out.new.items ≡ out.old.items ++ volume_text volume.now.blocks
        volume.now.accounts.items volume.now.files.items names.now) }
{
    push_disk(out, volume.blocks)?;
    push_accounts(out, volume.accounts.as_slice())?;
    push_files(out, volume.files.as_slice())?;
    push_terminals(out, names)?;
    Ok(out.extend_from_slice(b"END\n")?)
}

fn push_disk(out: &mut Vec<u8>, blocks: u16) -> Result<(), NoMemory>
    ensures { OnOk result (out.new.items ≡ out.old.items
        ++ (codes "RSTS-DECK 3\nDISK " ++ decimal blocks ++ 10 ∷ [])) }
{
    let mut buffer = Buffer::new();
    out.extend_from_slice(b"RSTS-DECK 3\nDISK ")?;
    out.extend_from_slice(buffer.format(blocks).as_bytes())?;
    Ok(out.push(b'\n')?)
}

fn push_accounts(out: &mut Vec<u8>, accounts: &[AccountEntry]) -> Result<(), NoMemory>
    ensures { OnOk result (out.new.items
        ≡ out.old.items ++ text_of_lines (map (account_line Three) accounts.now)) }
{
    for entry in accounts {
        push_account(out, entry)?;
    }
    Ok(())
}

fn push_account(out: &mut Vec<u8>, entry: &AccountEntry) -> Result<(), NoMemory>
    ensures { OnOk result (out.new.items
        ≡ out.old.items ++ (account_line Three entry.now ++ 10 ∷ [])) }
{
    let mut buffer = Buffer::new();
    out.extend_from_slice(b"ACCOUNT ")?;
    push_numbers(out, entry.account)?;
    out.push(b' ')?;
    out.extend_from_slice(entry.password.as_bytes())?;
    out.push(b' ')?;
    out.extend_from_slice(buffer.format(entry.limit).as_bytes())?;
    out.push(b' ')?;
    out.extend_from_slice(buffer.format(entry.quota).as_bytes())?;
    Ok(out.push(b'\n')?)
}

fn push_terminals(out: &mut Vec<u8>, names: &[TerminalName]) -> Result<(), NoMemory>
    ensures { OnOk result (out.new.items
        ≡ out.old.items ++ text_of_lines (flat_map terminal_lines (map keyless names.now))) }
{
    for name in names {
        out.extend_from_slice(b"TERMINAL ")?;
        out.extend_from_slice(name.as_bytes())?;
        out.push(b'\n')?;
    }
    Ok(())
}
