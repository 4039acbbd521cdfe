//! The fields of a format, and what each writes.

ghost use Rattle.std.specs.Prelude.{◌≡◌, ◌<◌, ◌^◌, ◌++◌, ◌∷◌, [], length, replicate, OnOk};
ghost use Rattle.print_using.specs.Fields.{field_spelling, cut_to, placed_right, field_places};
ghost use Rattle.print_using.specs.Fields.{filler_of, digits_written, minus_written};
ghost use Rattle.print_using.specs.Fields.{number_written, field_bytes};
ghost use Rattle.print_using.specs.Adding.{AddsWritten};
ghost use Rattle.print_using.specs.Values.{printed_value};

use crate::values::Using;
use basic_values::errors::DATA_FORMAT_ERROR;
use basic_values::{Fault, NoMemory, Trouble};
use itoa::Buffer;

/// A field of a format.
#[derive(Clone, Copy)]
pub enum Field {
    /// `!`: the first byte of a string.
    Initial,
    /// `\`, any number of spaces and `\`: as many bytes of a string as the field has.
    Column {
        spaces: usize,
    },
    /// One or more `#`, one place each, for a number, right-aligned. With `**` before them it has
    /// two more places and is filled with `*`. With `-` at the end, the minus is written there.
    Digits {
        starred: bool,
        signs: usize,
        trailing: bool,
    },
}

impl Field {
    /// Returns how many bytes spell the field.
    pub(crate) fn width(self) -> usize
        requires { length (field_spelling self) < 2 ^ 63 }
        ensures { result ≡ length (field_spelling self) }
    {
        match self {
            Field::Initial => 1,
            Field::Column { spaces } => spaces + 2,
            Field::Digits {
                starred,
                signs,
                trailing,
            } => usize::from(starred) * 2 + signs + usize::from(trailing),
        }
    }
}

/// Writes the value in the field. Error 50 is "Data format error": the field is for values of the
/// other kind, and nothing is written.
pub(crate) fn write_field(
    bytes: &mut Vec<u8>,
    field: Field,
    value: &Using<'_>,
) -> Result<(), Trouble<Fault>>
    requires { length (field_spelling field) < 2 ^ 63 }
    ensures { AddsWritten (field_bytes field (printed_value value.now))
        bytes.old.items bytes.new.items result }
{
    match (field, value) {
        (Field::Initial, Using::Text(text)) => write_cut(bytes, 1, text)?,
        (Field::Column { spaces }, Using::Text(text)) => write_cut(bytes, spaces + 2, text)?,
        (
            Field::Digits {
                starred,
                signs,
                trailing,
            },
            Using::Number(n),
        ) => write_number(bytes, starred, signs, trailing, *n)?,
        _ => return Err(Trouble::Refused(Fault::new(DATA_FORMAT_ERROR))),
    }
    Ok(())
}

/// Writes this many bytes of the string, padded with spaces.
fn write_cut(bytes: &mut Vec<u8>, width: usize, text: &[u8]) -> Result<(), NoMemory>
    ensures { OnOk result (bytes.new.items ≡ bytes.old.items ++ cut_to width text.now) }
{
    let count = text.len().min(width);
    bytes.extend_from_slice(&text[..count])?;
    write_times(bytes, width - count, b' ')
}

/// Writes a byte this many times.
fn write_times(bytes: &mut Vec<u8>, count: usize, byte: u8) -> Result<(), NoMemory>
    ensures { OnOk result (bytes.new.items ≡ bytes.old.items ++ replicate count byte) }
{
    for _ in 0..count {
        bytes.push(byte)?;
    }
    Ok(())
}

/// Writes the number in a field for numbers.
fn write_number(
    bytes: &mut Vec<u8>,
    starred: bool,
    signs: usize,
    trailing: bool,
    n: i16,
) -> Result<(), NoMemory>
    requires { field_places starred signs < 2 ^ 64 }
    ensures { OnOk result
        (bytes.new.items ≡ bytes.old.items ++ number_written starred signs trailing n) }
{
    let places = usize::from(starred) * 2 + signs;
    let filler = if starred { b'*' } else { b' ' };
    write_digits(bytes, places, filler, trailing, n)?;
    if trailing {
        bytes.push(if n < 0 { b'-' } else { b' ' })?;
    }
    Ok(())
}

/// Writes the digits of the number, after its minus, unless the field has the minus at its end.
fn write_digits(
    bytes: &mut Vec<u8>,
    places: usize,
    filler: u8,
    trailing: bool,
    n: i16,
) -> Result<(), NoMemory>
    ensures { OnOk result
        (bytes.new.items
        ≡ bytes.old.items ++ placed_right places filler (digits_written trailing n)) }
{
    let mut buffer = Buffer::new();
    let digits = if trailing {
        buffer.format(n.unsigned_abs())
    } else {
        buffer.format(n)
    };
    write_right(bytes, places, filler, digits.as_bytes())
}

/// Writes digits right-aligned in this many places, or, if they need more places, a `%` and all of
/// them.
fn write_right(
    bytes: &mut Vec<u8>,
    places: usize,
    filler: u8,
    digits: &[u8],
) -> Result<(), NoMemory>
    ensures { OnOk result
        (bytes.new.items ≡ bytes.old.items ++ placed_right places filler digits.now) }
{
    if digits.len() <= places {
        write_times(bytes, places - digits.len(), filler)?;
    } else {
        bytes.push(b'%')?;
    }
    bytes.extend_from_slice(digits)?;
    Ok(())
}
