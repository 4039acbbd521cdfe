//! Moves the files of a disk out of it, with their pages.

ghost use Rattle.std.specs.Prelude.{ℕ, ◌≡◌, Some, None, map, get_or, IfOk, OnOk};
ghost use Rattle.monitor_model.specs.State.{volume_file};
ghost use Rattle.block_files.specs.Disks.{times, total};
ghost use Rattle.block_files.specs.Rows.{files_of, rows};
ghost use Rattle.block_files.specs.Slots.{full, page_in, entries_in, AreTakenOnce};

use crate::bodies::{Directory, FileBody};
use basic_values::{NoMemory, Series};
use monitor_calls::{FileEntry, FileName, Page};
use std::alloc::Global;

/// Returns the files of a directory in the order of making, with their pages out of these.
pub(crate) fn unmounted(
    alloc: Global,
    pages: Vec<Page>,
    files: &Directory,
) -> Result<Vec<FileEntry>, NoMemory>
    requires { AreTakenOnce (full pages.items) (λ p. total (times p) (rows files.now.entries)) }
    ensures { IfOk result (λ entries.
        entries.items ≡ map volume_file (files_of pages.items files.now.entries)) }
{
    let mut slots = slots_of(alloc, pages)?;
    entries_of(alloc, slots.as_mut_slice(), files)
}

/// Returns the pages, each in a slot, from which it can be taken.
fn slots_of(alloc: Global, pages: Vec<Page>) -> Result<Vec<Option<Page>>, NoMemory>
    ensures { IfOk result (λ slots. slots.items ≡ full pages.items) }
{
    Ok(pages.into_iter().map(|page| Some(page)).collect(alloc)?)
}

/// Returns the files, with their pages taken out of the slots.
fn entries_of(
    alloc: Global,
    slots: &mut [Option<Page>],
    files: &Directory,
) -> Result<Vec<FileEntry>, NoMemory>
    requires { AreTakenOnce slots.old (λ p. total (times p) (rows files.now.entries)) }
    ensures { IfOk result (λ entries. entries.items ≡ entries_in slots.old files.now.entries) }
{
    let mut entries = Vec::with_capacity(alloc, files.len())?;
    for place in 0..files.len() {
        if let Some((name, body)) = files.get_index(place) {
            entries.push(entry_of(alloc, slots, name, body)?)?;
        }
    }
    Ok(entries)
}

fn entry_of(
    alloc: Global,
    slots: &mut [Option<Page>],
    name: &FileName,
    body: &FileBody,
) -> Result<FileEntry, NoMemory>
    requires { AreTakenOnce slots.old (λ p. times p body.now.places.items) }
    ensures name { IfOk result (λ entry. entry.name ≡ name.now) }
    ensures code { IfOk result (λ entry. entry.code ≡ body.now.code) }
    ensures pages { IfOk result (λ entry.
        entry.pages ≡ map (page_in slots.old) body.now.places.items) }
    ensures others { OnOk result ((p : ℕ) → times p body.now.places.items ≡ 0
        → get_or slots.new p None ≡ get_or slots.old p None) }
{
    Ok(FileEntry {
        name: *name,
        code: body.code,
        pages: taken(alloc, slots, body.places.as_slice())?,
    })
}

/// Takes the pages at these places out of their slots.
fn taken(
    alloc: Global,
    slots: &mut [Option<Page>],
    places: &[u16],
) -> Result<Series<Page>, NoMemory>
    requires { AreTakenOnce slots.old (λ p. times p places.now) }
    ensures pages { IfOk result (λ pages. pages ≡ map (page_in slots.old) places.now) }
    ensures others { OnOk result ((p : ℕ) → times p places.now ≡ 0
        → get_or slots.new p None ≡ get_or slots.old p None) }
{
    let mut pages = Vec::with_capacity(alloc, places.len())?;
    for place in places {
        let slot = &mut slots[*place as usize];
        pages.push_reserved(slot.take().unwrap());
    }
    Ok(Series::from_vec(pages))
}
