//! Reads a format from the left.

ghost use Rattle.std.specs.Prelude.{◌≡◌, ◌≤◌, ◌==◌, length, IfSome};
ghost use Rattle.std.specs.List.{prefix_len};
ghost use Rattle.print_using.specs.Fields.{field_spelling};
ghost use Rattle.print_using.specs.FormatFronts.{run_of, has_at, digits_front, column_front};
ghost use Rattle.print_using.specs.FormatFronts.{starred_front, front_by, front_field};
ghost use Rattle.print_using.specs.FormatFronts.{bytes_before_field};

use crate::fields::Field;

/// Returns the longest field with which the format begins, if there is one.
pub(crate) fn front_field(format: &[u8]) -> Option<Field>
    ensures field { result ≡ front_field format.now }
    ensures within { IfSome result (λ field. length (field_spelling field) ≤ length format.now) }
{
    if format.is_empty() {
        return None;
    }
    front_by(format[0], format)
}

/// Returns the field that begins with this byte, the first of the format.
#[tactic(auto, unfolding(crate::specs::FormatFronts::front_by))]
fn front_by(byte: u8, format: &[u8]) -> Option<Field>
    requires { 1 ≤ length format.now }
    ensures { result ≡ front_by byte format.now }
{
    match byte {
        b'!' => Some(Field::Initial),
        b'\\' => column_front(&format[1..]),
        b'*' => starred_front(&format[1..]),
        b'#' => Some(digits_front(false, format)),
        _ => None,
    }
}

/// Returns the field for a string, from the bytes after its first `\`.
fn column_front(rest: &[u8]) -> Option<Field>
    ensures { result ≡ column_front rest.now }
{
    let spaces = run_of(b' ', rest);
    if has_at(b'\\', spaces, rest) {
        Some(Field::Column { spaces })
    } else {
        None
    }
}

/// Returns the field for a number, from the bytes after its first `*`.
fn starred_front(rest: &[u8]) -> Option<Field>
    ensures { result ≡ starred_front rest.now }
{
    if has_at(b'*', 0, rest) {
        Some(digits_front(true, &rest[1..]))
    } else {
        None
    }
}

/// Returns the field for a number, from its first `#` on.
fn digits_front(starred: bool, text: &[u8]) -> Field
    ensures { result ≡ digits_front starred text.now }
{
    let signs = run_of(b'#', text);
    Field::Digits {
        starred,
        signs,
        trailing: has_at(b'-', signs, text),
    }
}

/// Returns how many of this byte the string begins with.
fn run_of(byte: u8, text: &[u8]) -> usize
    ensures { result ≡ run_of byte text.now }
{
    text.iter().take_while(|b| **b == byte).count()
}

/// Returns whether the byte is at the place.
fn has_at(byte: u8, place: usize, text: &[u8]) -> bool
    ensures { result ≡ has_at byte place text.now }
{
    text.get(place).copied().unwrap_or(0) == byte
}

/// Returns how many bytes are before the first field, or before the end.
pub(crate) fn bytes_before_field(format: &[u8]) -> usize
    ensures count { result ≡ bytes_before_field format.now }
    ensures within { result ≤ length format.now }
{
    for place in 0..format.len() {
        if front_field(&format[place..]).is_some() {
            return place;
        }
    }
    format.len()
}
