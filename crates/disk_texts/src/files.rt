//! The lines of a volume's files.

ghost use Rattle.std.specs.Prelude.{◌≡◌, ◌++◌, ◌∷◌, [], map, codes, OnOk};
ghost use Rattle.std.specs.Fmt.{decimal};
ghost use Rattle.deck_model.specs.Forms.{extension_text};
ghost use Rattle.deck_model.specs.Spelling.{content_line, extension_of, file_lines};
ghost use Rattle.deck_model.specs.DiskTexts.{file_with_lines, lines_of_pages, page_line};
ghost use Rattle.deck_model.specs.DiskTexts.{text_lines, text_of_lines};
ghost use Rattle.disk_texts.specs.Parts.{file_head, files_text};

use crate::contents::{is_text, joined, without_zeros};
use basic_values::NoMemory;
use deck_reader::next_line;
use itoa::Buffer;
use monitor_calls::{Account, FileEntry, Page};
use report_texts::push_hex;

/// Appends the lines of all files.
pub(crate) fn push_files(out: &mut Vec<u8>, files: &[FileEntry]) -> Result<(), NoMemory>
    ensures { OnOk result (out.new.items ≡ out.old.items ++ files_text files.now) }
{
    for file in files {
        push_file(out, file)?;
    }
    Ok(())
}

/// Appends a file's first line and the lines of its content.
fn push_file(out: &mut Vec<u8>, file: &FileEntry) -> Result<(), NoMemory>
    ensures { OnOk result (out.new.items
        ≡ out.old.items ++ text_of_lines (file_lines (file_with_lines file.now))) }
{
    push_head(out, file)?;
    push_content(out, file.pages.as_slice())
}

/// Appends the line of a file's name, code and blocks.
fn push_head(out: &mut Vec<u8>, file: &FileEntry) -> Result<(), NoMemory>
    ensures { OnOk result (out.new.items ≡ out.old.items ++ (file_head file.now ++ 10 ∷ [])) }
{
    let mut buffer = Buffer::new();
    out.extend_from_slice(b"FILE [")?;
    push_numbers(out, file.name.owner)?;
    out.push(b']')?;
    out.extend_from_slice(file.name.stem.as_bytes())?;
    push_extension(out, file.name.extension.as_bytes())?;
    out.push(b'<')?;
    out.extend_from_slice(buffer.format(file.code).as_bytes())?;
    out.extend_from_slice(b"> ")?;
    out.extend_from_slice(buffer.format(file.pages.as_slice().len()).as_bytes())?;
    Ok(out.push(b'\n')?)
}

/// Appends the project and the programmer number, with a comma.
pub(crate) fn push_numbers(out: &mut Vec<u8>, account: Account) -> Result<(), NoMemory>
    ensures { OnOk result (out.new.items ≡ out.old.items
        ++ (decimal account.project ++ codes "," ++ decimal account.programmer)) }
{
    let mut buffer = Buffer::new();
    out.extend_from_slice(buffer.format(account.project).as_bytes())?;
    out.push(b',')?;
    Ok(out.extend_from_slice(buffer.format(account.programmer).as_bytes())?)
}

/// Appends a point and the extension, or nothing if there is none.
fn push_extension(out: &mut Vec<u8>, extension: &[u8]) -> Result<(), NoMemory>
    ensures { OnOk result (out.new.items
        ≡ out.old.items ++ extension_text (extension_of extension.now)) }
{
    match extension {
        [] => Ok(()),
        [..] => {
            out.push(b'.')?;
            Ok(out.extend_from_slice(extension)?)
        }
    }
}

/// Appends the content as lines of text if it is a text, or else page by page.
fn push_content(out: &mut Vec<u8>, pages: &[Page]) -> Result<(), NoMemory>
    ensures { OnOk result (out.new.items
        ≡ out.old.items ++ text_of_lines (map content_line (lines_of_pages pages.now))) }
{
    let bytes = joined(*out.allocator(), pages)?;
    let content = without_zeros(bytes.as_slice());
    if is_text(content) {
        push_text(out, content)
    } else {
        push_pages(out, pages)
    }
}

/// Appends a line for each line of a text.
fn push_text(out: &mut Vec<u8>, text: &[u8]) -> Result<(), NoMemory>
    ensures { OnOk result (out.new.items
        ≡ out.old.items ++ text_of_lines (map content_line (text_lines text.now))) }
{
    let mut rest = text;
    while let Some((line, after)) = next_line(rest) {
        push_text_line(out, line)?;
        rest = after;
    }
    Ok(())
}

fn push_text_line(out: &mut Vec<u8>, line: &[u8]) -> Result<(), NoMemory>
    ensures { OnOk result (out.new.items ≡ out.old.items ++ (codes ">" ++ line.now ++ 10 ∷ [])) }
{
    out.push(b'>')?;
    out.extend_from_slice(line)?;
    Ok(out.push(b'\n')?)
}

/// Appends a line of digits for each page.
fn push_pages(out: &mut Vec<u8>, pages: &[Page]) -> Result<(), NoMemory>
    ensures { OnOk result (out.new.items
        ≡ out.old.items ++ text_of_lines (map content_line (map page_line pages.now))) }
{
    for page in pages {
        push_page(out, page)?;
    }
    Ok(())
}

fn push_page(out: &mut Vec<u8>, page: &Page) -> Result<(), NoMemory>
    ensures { OnOk result (out.new.items
        ≡ out.old.items ++ (content_line (page_line page.now) ++ 10 ∷ [])) }
{
    out.push(b'=')?;
    push_hex(out, without_zeros(page.as_bytes()))?;
    Ok(out.push(b'\n')?)
}
