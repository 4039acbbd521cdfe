//! Fields that are bytes, two hexadecimal digits for each.

ghost use Rattle.std.specs.Prelude.{◌≡◌, ◌*◌, ◌<◌, ◌≤◌, length, Some, None, nat_le, if◌then◌else◌};
ghost use Rattle.std.specs.Prelude.{IfOk};
ghost use Rattle.basic_values.specs.declared.limits.TheConstants.{BLOCK_BYTES};
ghost use Rattle.basic_values.specs.declared.texts.TheConstants.{MOST_BYTES};
ghost use Rattle.deck_model.specs.Files.{pages_of};
ghost use Rattle.history_reader.specs.LineFields.{ReadsAs, field_by, sign_value, hex_bytes};
ghost use Rattle.history_reader.specs.LineFields.{password_read, message_read, one_page_read};
ghost use Rattle.history_reader.specs.LineFields.{page_run_read};

use crate::failures::LineError;
use crate::fields::word;
use basic_values::limits::BLOCK_BYTES;
use basic_values::{NoMemory, Series, Text, Trouble};
use monitor_calls::{Page, Short};
use std::alloc::Global;

/// Reads a string of at most 32,767 bytes.
#[tactic(auto, unfolding(crate::specs::LineFields::field_by))]
pub(crate) fn text_field(alloc: Global, text: &[u8]) -> Result<(Text, &[u8]), LineError>
    ensures { ReadsAs (λ x. (x.0, x.1.now)) result (field_by message_read text.now) }
{
    let (word, rest) = word(text);
    let value = message(alloc, word)?;
    Ok((value, rest))
}

/// Reads a block.
#[tactic(auto, unfolding(crate::specs::LineFields::field_by))]
pub(crate) fn page_field(alloc: Global, text: &[u8]) -> Result<(Page, &[u8]), LineError>
    ensures { ReadsAs (λ x. (x.0, x.1.now)) result (field_by one_page_read text.now) }
{
    let (word, rest) = word(text);
    let value = page(alloc, word)?;
    Ok((value, rest))
}

/// Reads consecutive blocks.
#[tactic(auto, unfolding(crate::specs::LineFields::field_by))]
pub(crate) fn pages_field(alloc: Global, text: &[u8]) -> Result<(Series<Page>, &[u8]), LineError>
    ensures { ReadsAs (λ x. (x.0, x.1.now)) result (field_by page_run_read text.now) }
{
    let (word, rest) = word(text);
    let value = pages(alloc, word)?;
    Ok((value, rest))
}

/// Reads a password.
#[tactic(auto, unfolding(crate::specs::LineFields::password_read, crate::specs::LineFields::short_read))]
pub(crate) fn password(alloc: Global, signs: &[u8]) -> Result<Short, LineError>
    ensures { ReadsAs (λ x. x) result (password_read signs.now) }
{
    let bytes = bytes_of(alloc, signs)?;
    Short::of(bytes.as_slice()).ok_or(LineError::Wrong)
}

#[tactic(auto, unfolding(crate::specs::LineFields::message_read))]
fn message(alloc: Global, signs: &[u8]) -> Result<Text, LineError>
    ensures { ReadsAs (λ x. x) result (message_read signs.now) }
{
    let bytes = bytes_of(alloc, signs)?;
    match Text::of(alloc, bytes.as_slice()) {
        Ok(text) => Ok(text),
        Err(Trouble::Refused(_)) => Err(LineError::Wrong),
        Err(Trouble::NoMemory) => Err(LineError::Memory),
    }
}

#[tactic(auto, unfolding(crate::specs::LineFields::one_page_read))]
fn page(alloc: Global, signs: &[u8]) -> Result<Page, LineError>
    ensures { ReadsAs (λ x. x) result (one_page_read signs.now) }
{
    let bytes = bytes_of(alloc, signs)?;
    if bytes.len() != BLOCK_BYTES {
        return Err(LineError::Wrong);
    }
    Ok(page_of(alloc, bytes.as_slice())?)
}

#[tactic(auto, unfolding(crate::specs::LineFields::page_run_read))]
fn pages(alloc: Global, signs: &[u8]) -> Result<Series<Page>, LineError>
    ensures { ReadsAs (λ x. x) result (page_run_read signs.now) }
{
    let bytes = bytes_of(alloc, signs)?;
    let count = bytes.len() / BLOCK_BYTES;
    Ok(pages_of(alloc, count, bytes.as_slice())?)
}

/// Returns the whole pages of the bytes.
fn pages_of(alloc: Global, count: usize, bytes: &[u8]) -> Result<Series<Page>, NoMemory>
    requires { BLOCK_BYTES * count ≤ length bytes.now }
    ensures { IfOk result (λ pages. pages ≡ pages_of count bytes.now) }
{
    let mut pages = Vec::new(alloc);
    let mut left = bytes;
    for _ in 0..count {
        let (front, behind) = left.split_at(BLOCK_BYTES);
        pages.push(page_of(alloc, front)?)?;
        left = behind;
    }
    Ok(Series::from_vec(pages))
}

fn page_of(alloc: Global, bytes: &[u8]) -> Result<Page, NoMemory>
    requires { length bytes.now ≡ BLOCK_BYTES }
    ensures { IfOk result (λ page. page ≡ bytes.now) }
{
    let mut page = Page::new(alloc)?;
    page.fill(bytes);
    Ok(page)
}

/// Returns the byte of each two digits. A last digit alone gives none, and neither does the dash
/// that means no bytes.
fn bytes_of(alloc: Global, signs: &[u8]) -> Result<Vec<u8>, NoMemory>
    ensures { IfOk result (λ bytes. bytes.items ≡ hex_bytes signs.now) }
{
    let mut bytes = Vec::new(alloc);
    let mut rest = signs;
    while let [high, low, after @ ..] = rest {
        bytes.push(16 * sign_value(*high) + sign_value(*low))?;
        rest = after;
    }
    Ok(bytes)
}

/// Returns the number of a hexadecimal digit. Any other byte counts as 0: the line written of these
/// bytes is then another.
fn sign_value(sign: u8) -> u8
    ensures value { result ≡ sign_value sign }
    ensures small { result < 16 }
{
    match sign {
        b'0'..=b'9' => sign - b'0',
        b'a'..=b'f' => sign - b'a' + 10,
        _ => 0,
    }
}
