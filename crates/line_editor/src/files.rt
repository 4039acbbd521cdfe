//! Program files: their pages, and the lines that are read from them.

ghost use Rattle.std.specs.Prelude.{◌≡◌, ◌<◌, ◌≤◌, ◌-◌, ◌++◌, [], length, filter, replicate, IfOk};
ghost use Rattle.std.specs.Prelude.{OnOk, IsTrue, ◌↔◌};
ghost use Rattle.basic_tree.specs.ProgramLines.{listing};
ghost use Rattle.basic_tree.specs.FileLines.{is_written, without_return, file_text, file_lines};
ghost use Rattle.basic_values.specs.declared.limits.TheConstants.{BLOCK_BYTES};
ghost use Rattle.line_editor.specs.Files.{IsPaged, IsFileOf, ArePlain, KeepsOne, KeepsAll};
ghost use Rattle.line_editor.specs.Files.{ReadsFile, CutsLine};

use crate::numbers::line_number;
use crate::text::ProgramText;
use basic_values::errors::DATA_FORMAT_ERROR;
use basic_values::limits::{BLOCK_BYTES, MOST_NUMBER};
use basic_values::{Fault, NoMemory, Trouble};
use monitor_calls::Page;
use std::alloc::Global;

/// The first line of some bytes, and the bytes after it.
#[derive(Clone, Copy)]
struct Cut<'a> {
    line: &'a [u8],
    left: &'a [u8],
}

impl ProgramText {
    /// Returns the pages of the program's file: the lines as they are listed, and zeros to the end
    /// of the last page.
    pub fn to_file(&self) -> Result<Vec<Page>, NoMemory>
        ensures pages { IfOk result (λ pages. IsPaged (listing self.now) pages.items) }
        // Reading it returns the same lines, if none of them has a zero byte or an LF.
        ensures again { IfOk result (λ pages. ArePlain self.now → IsFileOf pages.items self.now) }
    {
        pages_of(self.alloc, self.list(1, MOST_NUMBER))
    }

    /// Reads a file. Zero bytes are dropped. A line ends at LF or at the end of the file, and one
    /// CR before the LF is dropped. A line replaces an earlier one with its number. Error 50: a
    /// line has no number, or is rejected.
    pub fn from_file(alloc: Global, pages: &[Page]) -> Result<ProgramText, Trouble<Fault>>
        ensures { ReadsFile pages.now result }
    {
        let bytes = bytes_of(alloc, pages)?;
        let mut text = ProgramText::new(alloc);
        match text.keep_all(bytes.as_slice()) {
            Ok(()) => Ok(text),
            Err(trouble) => Err(trouble),
        }
    }

    /// Stores all lines of a file.
    fn keep_all(&mut self, bytes: &[u8]) -> Result<(), Trouble<Fault>>
        ensures { KeepsAll (file_lines bytes.now) self.old self.new result }
    {
        let mut left = bytes;
        while !left.is_empty() {
            let cut = first_line(left);
            self.keep_text(cut.line)?;
            left = cut.left;
        }
        Ok(())
    }

    /// Stores one line of a file.
    fn keep_text(&mut self, text: &[u8]) -> Result<(), Trouble<Fault>>
        ensures { KeepsOne text.now self.old self.new result }
    {
        let Some(numbered) = line_number(text) else {
            return Err(Trouble::Refused(Fault::new(DATA_FORMAT_ERROR)));
        };
        match self.keep(numbered.number, numbered.rest) {
            Ok(()) => Ok(()),
            Err(Trouble::Refused(_)) => Err(Trouble::Refused(Fault::new(DATA_FORMAT_ERROR))),
            Err(Trouble::NoMemory) => Err(Trouble::NoMemory),
        }
    }
}

/// Splits the bytes into pages, with zeros after the bytes of the last one.
fn pages_of(alloc: Global, bytes: &[u8]) -> Result<Vec<Page>, NoMemory>
    ensures { IfOk result (λ pages. IsPaged bytes.now pages.items) }
{
    let mut pages = Vec::new(alloc);
    let mut left = bytes;
    while !left.is_empty() {
        let (front, behind) = left.split_at(left.len().min(BLOCK_BYTES));
        pages.push(page_of(alloc, front)?)?;
        left = behind;
    }
    Ok(pages)
}

/// Returns a page that begins with these bytes and ends with zeros.
fn page_of(alloc: Global, bytes: &[u8]) -> Result<Page, NoMemory>
    requires { length bytes.now ≤ BLOCK_BYTES }
    ensures { IfOk result
        (λ page. page ≡ bytes.now ++ replicate (BLOCK_BYTES - length bytes.now) 0) }
{
    let mut whole = Vec::from_slice(alloc, bytes)?;
    whole.resize(BLOCK_BYTES, 0)?;
    let mut page = Page::new(alloc)?;
    page.fill(whole.as_slice());
    Ok(page)
}

/// Returns the bytes of the pages, without zero bytes.
fn bytes_of(alloc: Global, pages: &[Page]) -> Result<Vec<u8>, NoMemory>
    ensures { IfOk result (λ bytes. bytes.items ≡ file_text pages.now) }
{
    let mut bytes = Vec::new(alloc);
    for page in pages {
        append_written(&mut bytes, page.as_bytes())?;
    }
    Ok(bytes)
}

/// Appends the bytes that are not zero.
fn append_written(bytes: &mut Vec<u8>, page: &[u8]) -> Result<(), NoMemory>
    ensures { OnOk result (bytes.new.items ≡ bytes.old.items ++ filter is_written page.now) }
{
    for byte in page {
        if *byte != 0 {
            bytes.push(*byte)?;
        }
    }
    Ok(())
}

/// Splits off the first line, up to its LF or to the end.
fn first_line(text: &[u8]) -> Cut<'_>
    requires { 0 < length text.now }
    ensures { CutsLine text.entry.now result }
{
    for place in 0..text.len() {
        if text[place] == b'\n' {
            return Cut {
                line: without_return(&text[..place]),
                left: &text[place + 1..],
            };
        }
    }
    Cut {
        line: text,
        left: &[],
    }
}

/// Returns the bytes without one CR at their end.
fn without_return(text: &[u8]) -> &[u8]
    ensures { result.now ≡ without_return text.entry.now }
{
    match text {
        [line @ .., b'\r'] => line,
        _ => text,
    }
}
