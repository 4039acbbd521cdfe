//! The fields of a line. Most readers take the first word of a text, and return what it says and
//! what comes after the space after it.

ghost use Rattle.std.specs.Prelude.{◌≡◌};
ghost use Rattle.basic_values.specs.Cuts.{Finds, cut};
ghost use Rattle.history_reader.specs.LineFields.{ReadsAs, word_read, field_by, byte_read};
ghost use Rattle.history_reader.specs.LineFields.{half_read, long_read, account_read, short_read};
ghost use Rattle.history_reader.specs.LineFields.{stem_of, name_read, letters_read, truth_read};
ghost use Rattle.history_reader.specs.LineFields.{kind_read, code_read, blocks_read};

use crate::failures::LineError;
use basic_values::{behind, cut, number_between};
use monitor_calls::{Account, FileName, OpenKind, Short};

/// Returns the first word, and what comes after the space after it.
#[tactic(auto, unfolding(crate::specs::LineFields::word_read))]
pub(crate) fn word(text: &[u8]) -> (&[u8], &[u8])
    ensures { (result.0.now, result.1.now) ≡ word_read text.now }
{
    match cut(b' ', text) {
        Some((word, rest)) => (word, rest),
        None => (text, &[]),
    }
}

/// Reads a number of one byte.
#[tactic(auto, unfolding(crate::specs::LineFields::field_by))]
pub(crate) fn byte_field(text: &[u8]) -> Result<(u8, &[u8]), LineError>
    ensures { ReadsAs (λ x. (x.0, x.1.now)) result (field_by byte_read text.now) }
{
    let (word, rest) = word(text);
    let value = byte(word).ok_or(LineError::Wrong)?;
    Ok((value, rest))
}

/// Reads a number of two bytes.
#[tactic(auto, unfolding(crate::specs::LineFields::field_by))]
pub(crate) fn half_field(text: &[u8]) -> Result<(u16, &[u8]), LineError>
    ensures { ReadsAs (λ x. (x.0, x.1.now)) result (field_by half_read text.now) }
{
    let (word, rest) = word(text);
    let value = half(word).ok_or(LineError::Wrong)?;
    Ok((value, rest))
}

/// Reads a number of four bytes.
#[tactic(auto, unfolding(crate::specs::LineFields::field_by))]
pub(crate) fn long_field(text: &[u8]) -> Result<(u32, &[u8]), LineError>
    ensures { ReadsAs (λ x. (x.0, x.1.now)) result (field_by long_read text.now) }
{
    let (word, rest) = word(text);
    let value = long(word).ok_or(LineError::Wrong)?;
    Ok((value, rest))
}

/// Reads an account, as `p,n`.
#[tactic(auto, unfolding(crate::specs::LineFields::field_by))]
pub(crate) fn account_field(text: &[u8]) -> Result<(Account, &[u8]), LineError>
    ensures { ReadsAs (λ x. (x.0, x.1.now)) result (field_by account_read text.now) }
{
    let (word, rest) = word(text);
    let value = account(word).ok_or(LineError::Wrong)?;
    Ok((value, rest))
}

/// Reads 1 as true, and 0 as false.
#[tactic(auto, unfolding(crate::specs::LineFields::field_by))]
pub(crate) fn truth_field(text: &[u8]) -> Result<(bool, &[u8]), LineError>
    ensures { ReadsAs (λ x. (x.0, x.1.now)) result (field_by truth_read text.now) }
{
    let (word, rest) = word(text);
    let value = truth(word).ok_or(LineError::Wrong)?;
    Ok((value, rest))
}

/// Reads how a file is opened.
#[tactic(auto, unfolding(crate::specs::LineFields::field_by))]
pub(crate) fn kind_field(text: &[u8]) -> Result<(OpenKind, &[u8]), LineError>
    ensures { ReadsAs (λ x. (x.0, x.1.now)) result (field_by kind_read text.now) }
{
    let (word, rest) = word(text);
    let value = kind(word).ok_or(LineError::Wrong)?;
    Ok((value, rest))
}

/// Reads a code, or a dash if there is none.
#[tactic(auto, unfolding(crate::specs::LineFields::field_by))]
pub(crate) fn code_field(text: &[u8]) -> Result<(Option<u8>, &[u8]), LineError>
    ensures { ReadsAs (λ x. (x.0, x.1.now)) result (field_by code_read text.now) }
{
    let (word, rest) = word(text);
    let value = code(word).ok_or(LineError::Wrong)?;
    Ok((value, rest))
}

/// Reads how many blocks a file has, or a dash.
#[tactic(auto, unfolding(crate::specs::LineFields::field_by))]
pub(crate) fn blocks_field(text: &[u8]) -> Result<(Option<u16>, &[u8]), LineError>
    ensures { ReadsAs (λ x. (x.0, x.1.now)) result (field_by blocks_read text.now) }
{
    let (word, rest) = word(text);
    let value = blocks(word).ok_or(LineError::Wrong)?;
    Ok((value, rest))
}

#[tactic(auto, unfolding(crate::specs::LineFields::byte_read))]
fn byte(text: &[u8]) -> Option<u8>
    ensures { result ≡ byte_read text.now }
{
    let value = number_between(0, 255, text)?;
    Some(value as u8)
}

#[tactic(auto, unfolding(crate::specs::LineFields::half_read))]
fn half(text: &[u8]) -> Option<u16>
    ensures { result ≡ half_read text.now }
{
    let value = number_between(0, 65535, text)?;
    Some(value as u16)
}

#[tactic(auto, unfolding(crate::specs::LineFields::long_read))]
fn long(text: &[u8]) -> Option<u32>
    ensures { result ≡ long_read text.now }
{
    number_between(0, u32::MAX, text)
}

#[tactic(auto, unfolding(crate::specs::LineFields::account_read))]
fn account(text: &[u8]) -> Option<Account>
    ensures { result ≡ account_read text.now }
{
    let (project, programmer) = cut(b',', text)?;
    Some(Account {
        project: byte(project)?,
        programmer: byte(programmer)?,
    })
}

#[tactic(auto, unfolding(crate::specs::LineFields::short_read))]
fn short(text: &[u8]) -> Option<Short>
    ensures { Finds (λ x. x) result (short_read text.now) }
{
    Short::of(text)
}

/// Reads the name of a file.
#[tactic(auto, unfolding(crate::specs::LineFields::name_read))]
pub(crate) fn name(text: &[u8]) -> Option<FileName>
    ensures { result ≡ name_read text.now }
{
    let (owner, parts) = cut(b']', behind(b"[", text)?)?;
    let (stem, extension) = stem(parts);
    Some(FileName {
        owner: account(owner)?,
        stem: short(stem)?,
        extension: short(extension)?,
    })
}

/// Returns a stem, and the extension after the first point.
fn stem(text: &[u8]) -> (&[u8], &[u8])
    ensures { (result.0.now, result.1.now) ≡ stem_of text.now (cut 46 text.now) }
{
    match cut(b'.', text) {
        Some((stem, extension)) => (stem, extension),
        None => (text, &[]),
    }
}

/// Reads a short name, or a dash.
#[tactic(auto, unfolding(crate::specs::LineFields::letters_read, crate::specs::LineFields::short_read))]
pub(crate) fn letters(text: &[u8]) -> Option<Short>
    ensures { Finds (λ x. x) result (letters_read text.now) }
{
    if text == b"-".as_slice() {
        short(b"")
    } else {
        short(text)
    }
}

#[tactic(auto, unfolding(crate::specs::LineFields::truth_read))]
fn truth(text: &[u8]) -> Option<bool>
    ensures { result ≡ truth_read text.now }
{
    if text == b"1".as_slice() {
        Some(true)
    } else if text == b"0".as_slice() {
        Some(false)
    } else {
        None
    }
}

#[tactic(auto, unfolding(crate::specs::LineFields::kind_read))]
fn kind(text: &[u8]) -> Option<OpenKind>
    ensures { result ≡ kind_read text.now }
{
    if text == b"INPUT".as_slice() {
        Some(OpenKind::Input)
    } else if text == b"OUTPUT".as_slice() {
        Some(OpenKind::Output)
    } else if text == b"EITHER".as_slice() {
        Some(OpenKind::Either)
    } else if text == b"FRESH".as_slice() {
        Some(OpenKind::Fresh)
    } else {
        None
    }
}

#[tactic(auto, unfolding(crate::specs::LineFields::code_read))]
fn code(text: &[u8]) -> Option<Option<u8>>
    ensures { result ≡ code_read text.now }
{
    if text == b"-".as_slice() {
        Some(None)
    } else {
        Some(Some(byte(text)?))
    }
}

#[tactic(auto, unfolding(crate::specs::LineFields::blocks_read))]
fn blocks(text: &[u8]) -> Option<Option<u16>>
    ensures { result ≡ blocks_read text.now }
{
    if text == b"-".as_slice() {
        Some(None)
    } else {
        Some(Some(half(text)?))
    }
}
