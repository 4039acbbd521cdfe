//! Writes values by a format.

ghost use Rattle.std.specs.Prelude.{◌≡◌, [], ◌∷◌, ◌++◌, map, IfOk, OnOk};
ghost use Rattle.print_using.specs.FormatFronts.{before_field, from_field};
ghost use Rattle.print_using.specs.Adding.{one_of, AddsValue, AddsWritten, ReachesField};
ghost use Rattle.print_using.specs.Using.{AnswersWritten, using_bytes, with_line_end};
ghost use Rattle.print_using.specs.Values.{printed_value};

use crate::fields::write_field;
use crate::formats::{bytes_before_field, front_field};
use crate::values::Using;
use basic_values::errors::DATA_FORMAT_ERROR;
use basic_values::{Fault, NoMemory, Text2, Trouble};
use std::alloc::Global;

/// Returns what is written of the values by the format. Error 50 is "Data format error": a value
/// comes to a field for values of the other kind, or there is no field for it.
pub fn format_values(
    alloc: Global,
    format: &[u8],
    values: &[Using<'_>],
) -> Result<Text2, Trouble<Fault>>
    ensures { AnswersWritten (using_bytes format.now (map printed_value values.now)) result }
{
    let mut bytes = Vec::new(alloc);
    write_values(&mut bytes, format, values)?;
    Ok(Text2::from_vec(bytes))
}

/// Returns the same and the end of a line, as PRINT USING without a separator at its end writes it.
pub fn format_line(
    alloc: Global,
    format: &[u8],
    values: &[Using<'_>],
) -> Result<Text2, Trouble<Fault>>
    ensures { AnswersWritten
        (with_line_end (using_bytes format.now (map printed_value values.now))) result }
{
    let mut bytes = Vec::new(alloc);
    write_values(&mut bytes, format, values)?;
    write_line_end(&mut bytes)?;
    Ok(Text2::from_vec(bytes))
}

/// Writes the end of a line.
fn write_line_end(bytes: &mut Vec<u8>) -> Result<(), NoMemory>
    ensures { OnOk result (bytes.new.items ≡ bytes.old.items ++ 13 ∷ 10 ∷ []) }
{
    bytes.extend_from_slice(b"\r\n")?;
    Ok(())
}

/// Writes the values one after the other.
fn write_values(
    bytes: &mut Vec<u8>,
    format: &[u8],
    values: &[Using<'_>],
) -> Result<(), Trouble<Fault>>
    ensures { AddsWritten (using_bytes format.now (map printed_value values.now))
        bytes.old.items bytes.new.items result }
{
    let mut left = format;
    for value in values {
        left = write_value(bytes, format, left, value)?;
    }
    write_to_field(bytes, left)?;
    Ok(())
}

/// Writes one value, and returns the format after its field.
fn write_value<'a>(
    bytes: &mut Vec<u8>,
    format: &'a [u8],
    left: &'a [u8],
    value: &Using<'_>,
) -> Result<&'a [u8], Trouble<Fault>>
    ensures { AddsValue (one_of format.now left.now (printed_value value.now))
        bytes.old.items bytes.new.items result }
{
    let rest = write_to_next(bytes, format, left)?;
    match front_field(rest) {
        Some(field) => {
            write_field(bytes, field, value)?;
            Ok(&rest[field.width()..])
        }
        None => Err(Trouble::Refused(Fault::new(DATA_FORMAT_ERROR))),
    }
}

/// Writes the bytes before the next field, and returns the format from that field on. If no field
/// is left, the format begins again.
#[tactic(auto, using(crate::proofs::WritingLemmas::reaches_left, crate::proofs::WritingLemmas::reaches_again))]
fn write_to_next<'a>(
    bytes: &mut Vec<u8>,
    format: &'a [u8],
    left: &'a [u8],
) -> Result<&'a [u8], NoMemory>
    ensures { IfOk result (λ rest.
        ReachesField format.now left.now rest.now bytes.old.items bytes.new.items) }
{
    let rest = write_to_field(bytes, left)?;
    if rest.is_empty() {
        Ok(write_to_field(bytes, format)?)
    } else {
        Ok(rest)
    }
}

/// Writes the bytes before the next field, and returns the format from that field on.
fn write_to_field<'a>(bytes: &mut Vec<u8>, left: &'a [u8]) -> Result<&'a [u8], NoMemory>
    ensures written { OnOk result (bytes.new.items ≡ bytes.old.items ++ before_field left.now) }
    ensures rest { IfOk result (λ rest. rest.now ≡ from_field left.now) }
{
    let count = bytes_before_field(left);
    bytes.extend_from_slice(&left[..count])?;
    Ok(&left[count..])
}
