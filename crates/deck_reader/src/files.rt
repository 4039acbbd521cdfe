//! Files of a deck: their names, their content, and their pages on the volume.

ghost use Rattle.std.specs.Prelude.{◌≡◌, ◌<◌, ◌≤◌, ◌+◌, ◌*◌, ◌^◌, ◌++◌, false, if◌then◌else◌};
ghost use Rattle.std.specs.Prelude.{[], Some, None, length, nat_le, nat_lt, unwrap_or, IfOk, OnOk};
ghost use Rattle.basic_values.specs.declared.limits.TheConstants.{BLOCK_BYTES};
ghost use Rattle.monitor_calls.specs.Volumes.{same_account, has_file, blocks_of, blocks_for};
ghost use Rattle.monitor_calls.specs.Volumes.{blocks_owned};
ghost use Rattle.deck_model.specs.declared.versions.Version.TheVariants.{One, Three};
ghost use Rattle.deck_model.specs.Files.{block_of, pages_of, file_entry};
ghost use Rattle.deck_model.specs.Fronts as model;
ghost use Rattle.deck_model.specs.Hex.{hex_value, hex_bytes};
ghost use Rattle.deck_model.specs.Refusals.{is_stem, is_extension, most_code, is_file_in_range};
ghost use Rattle.basic_values.specs.Cuts.{Finds};
ghost use Rattle.deck_reader.specs.Seen.{option_seen, file_texts_seen, open_of};

use crate::decks::OpenFile;
use crate::forms::FileTexts;
use basic_values::limits::{BLOCK_BYTES, MOST_BLOCKS, MOST_CODE};
use basic_values::{NoMemory, Series, number_between};
use deck_model::Version;
use monitor_calls::{Account, FileEntry, FileName, Page, Short};
use std::alloc::Global;

/// Returns the file of these fields, without content, if its numbers and its name are in the ranges
/// of the version.
pub(crate) fn new_file(alloc: Global, version: Version, texts: &FileTexts<'_>) -> Option<OpenFile>
    ensures { Finds open_of result (if is_file_in_range version (file_texts_seen texts.now)
        then Some (model.new_file (file_texts_seen texts.now)) else None) }
{
    let project = number_between(1, 254, texts.project)?;
    let programmer = number_between(0, 254, texts.programmer)?;
    let stem = stem_of(version, texts.stem)?;
    let extension = extension_of(version, texts.extension)?;
    let code = number_between(0, most_code(version), texts.code)?;
    let blocks = number_between(0, u32::from(MOST_BLOCKS), texts.blocks)?;
    let owner = Account {
        project: project as u8,
        programmer: programmer as u8,
    };
    Some(OpenFile {
        name: FileName {
            owner,
            stem,
            extension,
        },
        code: code as u8,
        blocks: blocks as u16,
        content: Vec::new(alloc),
    })
}

/// Returns the stem, if it is in the range of the version.
fn stem_of(version: Version, text: &[u8]) -> Option<Short>
    ensures { result ≡ (if is_stem version text.now then Some text.now else None) }
{
    match version {
        Version::One | Version::Two => Short::password(text),
        Version::Three => Short::of(text),
    }
}

/// Returns the extension after the point, if it is in the range of the version. It is empty if
/// there is no point.
fn extension_of(version: Version, text: Option<&[u8]>) -> Option<Short>
    ensures { result ≡ (if is_extension version (option_seen text.entry)
        then Some (unwrap_or (option_seen text.entry) []) else None) }
{
    match text {
        None => Short::of(b""),
        Some(text) => extension_after_point(version, text),
    }
}

fn extension_after_point(version: Version, text: &[u8]) -> Option<Short>
    ensures { result ≡ (if is_extension version (Some text.now) then Some text.now else None) }
{
    match version {
        Version::One | Version::Two => capital_extension(text),
        Version::Three => any_extension(text),
    }
}

/// Returns the extension, if it has 1 to 3 capital letters and digits.
fn capital_extension(text: &[u8]) -> Option<Short>
    ensures { result ≡ (if is_extension One (Some text.now) then Some text.now else None) }
{
    if text.len() <= 3 {
        Short::password(text)
    } else {
        None
    }
}

/// Returns the extension, if it has 1 to 6 letters and digits.
fn any_extension(text: &[u8]) -> Option<Short>
    ensures { result ≡ (if is_extension Three (Some text.now) then Some text.now else None) }
{
    if text.is_empty() {
        None
    } else {
        Short::of(text)
    }
}

/// Returns the largest code of a file.
fn most_code(version: Version) -> u32
    ensures { result ≡ most_code version }
{
    match version {
        Version::One | Version::Two => u32::from(MOST_CODE),
        Version::Three => 255,
    }
}

impl OpenFile {
    /// Returns whether the file's blocks have no space for this many bytes more.
    pub(crate) fn lacks(&self, more: usize) -> bool
        ensures { result ≡ nat_lt (BLOCK_BYTES * self.now.blocks)
            (length self.now.content.items + more) }
    {
        let room = BLOCK_BYTES * self.blocks as usize - self.content.len();
        more > room
    }

    /// Adds a line of text, for which there is space.
    pub(crate) fn with_text(self, text: &[u8]) -> Result<OpenFile, NoMemory>
        requires { nat_lt (BLOCK_BYTES * self.blocks)
            (length (model.with_text (open_of self) text.now).content) ≡ false }
        ensures { IfOk result (λ file. open_of file ≡ model.with_text (open_of self) text.now) }
    {
        let OpenFile {
            name,
            code,
            blocks,
            mut content,
        } = self;
        content.extend_from_slice(text)?;
        content.extend_from_slice(b"\r\n")?;
        Ok(OpenFile {
            name,
            code,
            blocks,
            content,
        })
    }

    /// Adds the block that starts with the bytes of these digits, for which there is space.
    pub(crate) fn with_block(self, digits: &[u8]) -> Result<OpenFile, NoMemory>
        requires few { length (hex_bytes digits.now) ≤ BLOCK_BYTES }
        requires room { length self.content.items + BLOCK_BYTES ≤ BLOCK_BYTES * self.blocks }
        ensures { IfOk result (λ file.
            open_of file ≡ model.with_block (open_of self) (hex_bytes digits.now)) }
    {
        let OpenFile {
            name,
            code,
            blocks,
            mut content,
        } = self;
        push_block(&mut content, digits)?;
        Ok(OpenFile {
            name,
            code,
            blocks,
            content,
        })
    }

    /// Returns the file as the volume has it: its content, then zeros up to the end of its blocks.
    pub(crate) fn into_entry(self, alloc: Global) -> Result<FileEntry, NoMemory>
        ensures { IfOk result (λ entry. entry ≡ file_entry (open_of self)) }
    {
        let OpenFile {
            name,
            code,
            blocks,
            mut content,
        } = self;
        content.resize(BLOCK_BYTES * blocks as usize, 0)?;
        let pages = pages_of(alloc, blocks, content.as_slice())?;
        Ok(FileEntry { name, code, pages })
    }
}

/// Adds a block that starts with the bytes of these digits.
fn push_block(content: &mut Vec<u8>, digits: &[u8]) -> Result<(), NoMemory>
    requires few { length (hex_bytes digits.now) ≤ BLOCK_BYTES }
    requires small { length content.old.items ≤ 2 ^ 26 }
    ensures { OnOk result
        (content.new.items ≡ content.old.items ++ block_of (hex_bytes digits.now)) }
{
    let whole = content.len() + BLOCK_BYTES;
    push_bytes(content, digits)?;
    Ok(content.resize(whole, 0)?)
}

/// Adds the byte of each two digits.
fn push_bytes(bytes: &mut Vec<u8>, digits: &[u8]) -> Result<(), NoMemory>
    ensures { OnOk result (bytes.new.items ≡ bytes.old.items ++ hex_bytes digits.now) }
{
    let mut rest = digits;
    while let [high, low, after @ ..] = rest {
        bytes.push(16 * hex_value(*high) + hex_value(*low))?;
        rest = after;
    }
    Ok(())
}

/// Returns the number of a hexadecimal digit, or 0 for any other byte.
fn hex_value(digit: u8) -> u8
    ensures value { result ≡ hex_value digit }
    ensures small { result < 16 }
{
    match digit {
        b'0'..=b'9' => digit - b'0',
        b'a'..=b'f' => digit - b'a' + 10,
        _ => 0,
    }
}

/// Returns the bytes as pages, which they fill.
fn pages_of(alloc: Global, blocks: u16, bytes: &[u8]) -> Result<Series<Page>, NoMemory>
    requires { length bytes.now ≡ BLOCK_BYTES * blocks }
    ensures { IfOk result (λ pages. pages ≡ pages_of blocks bytes.now) }
{
    let mut pages = Vec::new(alloc);
    let mut left = bytes;
    for _ in 0..blocks {
        let (front, behind) = left.split_at(BLOCK_BYTES);
        let mut page = Page::new(alloc)?;
        page.fill(front);
        pages.push(page)?;
        left = behind;
    }
    Ok(Series::from_vec(pages))
}

/// Returns whether a file has this name. There are at most 512 files to look at.
pub(crate) fn has_file(files: &[FileEntry], name: &FileName) -> bool
    ensures { result ≡ has_file files.now name.now }
{
    files.iter().any(|file| file.name.is_same(name))
}

/// Returns whether the files have at most this many blocks.
pub(crate) fn fit_in(blocks: usize, files: &[FileEntry]) -> bool
    ensures { result ≡ nat_le (blocks_of files.now) blocks }
{
    match files {
        [] => true,
        [first, others @ ..] => {
            let pages = first.pages.as_slice().len();
            pages <= blocks && fit_in(blocks - pages, others)
        }
    }
}

/// Returns whether the files of an owner have at most this many blocks.
pub(crate) fn owns_at_most(blocks: usize, owner: Account, files: &[FileEntry]) -> bool
    ensures { result ≡ nat_le (blocks_owned files.now owner) blocks }
{
    match files {
        [] => true,
        [first, others @ ..] => {
            let pages = blocks_for(first, owner);
            pages <= blocks && owns_at_most(blocks - pages, owner, others)
        }
    }
}

/// Returns the blocks of a file if it is the owner's, or else 0.
fn blocks_for(file: &FileEntry, owner: Account) -> usize
    ensures { result ≡ blocks_for file.now owner }
{
    if is_same(file.name.owner, owner) {
        file.pages.as_slice().len()
    } else {
        0
    }
}

pub(crate) fn is_same(a: Account, b: Account) -> bool
    ensures { result ≡ same_account a b }
{
    a.project == b.project && a.programmer == b.programmer
}
