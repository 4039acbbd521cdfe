//! The bytes of a file, and whether they are a text.

ghost use Rattle.std.specs.Prelude.{◌≡◌, ◌&&◌, nat_lt, length, IfOk};
ghost use Rattle.std.specs.List.{concat, list_all};
ghost use Rattle.std.specs.Str.Lines.{strip_carriage_return};
ghost use Rattle.deck_model.specs.DiskTexts.{without_zeros, is_text_byte, is_text};
ghost use Rattle.disk_texts.specs.Parts.{is_ended_text};

use basic_values::{NoMemory, cut};
use monitor_calls::Page;
use std::alloc::Global;

/// Returns the bytes of all pages, one page after the other.
pub(crate) fn joined(alloc: Global, pages: &[Page]) -> Result<Vec<u8>, NoMemory>
    ensures { IfOk result (λ bytes. bytes.items ≡ concat pages.now) }
{
    let mut bytes = Vec::new(alloc);
    for page in pages {
        bytes.extend_from_slice(page.as_bytes())?;
    }
    Ok(bytes)
}

/// Returns the bytes up to the last that is not zero.
#[tactic(auto, using(crate::proofs::ZeroLemmas::zero_kept, crate::proofs::ZeroLemmas::last_stays, crate::proofs::ZeroLemmas::none_stays))]
pub(crate) fn without_zeros(bytes: &[u8]) -> &[u8]
    ensures { result.now ≡ without_zeros bytes.now }
{
    let mut kept = bytes;
    while let [front @ .., last] = kept {
        if *last != 0 {
            return kept;
        }
        kept = front;
    }
    kept
}

/// Returns whether the bytes are lines of printable characters and TABs, each ended by CR LF.
pub(crate) fn is_text(bytes: &[u8]) -> bool
    ensures { result ≡ is_text bytes.now }
{
    let mut rest = bytes;
    while let Some((line, after)) = cut(b'\n', rest) {
        if is_ended_text(line) {
            rest = after;
        } else {
            return false;
        }
    }
    rest.is_empty()
}

/// Returns whether CR ends a line of printable characters and TABs.
fn is_ended_text(line: &[u8]) -> bool
    ensures { result ≡ is_ended_text line.now }
{
    match line {
        [text @ .., b'\r'] => is_printable(text),
        _ => false,
    }
}

fn is_printable(text: &[u8]) -> bool
    ensures { result ≡ list_all is_text_byte text.now }
{
    text.iter()
        .all(|byte| (32..=126).contains(byte) || *byte == b'\t')
}
