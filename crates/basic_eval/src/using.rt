//! PRINT USING: the bytes that a format writes of values.

ghost use Rattle.std.specs.Prelude.{◌≡◌, map, IfOk, OnOk, List, []};
ghost use Rattle.print_using.specs.Values.{printed_value};
ghost use Rattle.program_model.specs.declared.values.Value.{Value};
ghost use Rattle.program_model.specs.PrintingOnChannels.{used_bytes, used_value};
ghost use Rattle.input_items.specs.Items.{Answers};

use basic_values::{Fault, NoMemory, Text2, Trouble};
use print_using::{Using, format_line, format_values};
use program_model::Value;
use std::alloc::Global;

/// Returns what a format writes of values, and the end of the line if that is requested. Error 50
/// if no field takes a value.
pub(crate) fn used_bytes(
    alloc: Global,
    ends_line: bool,
    format: &[u8],
    values: &[Value],
) -> Result<Text2, Trouble<Fault>>
    ensures { Answers (used_bytes ends_line format.now values.now) result }
{
    match used_values(alloc, values) {
        Ok(values) => formatted(alloc, ends_line, format, values.as_slice()),
        Err(NoMemory) => Err(Trouble::NoMemory),
    }
}

/// Does the same for lent values.
fn formatted(
    alloc: Global,
    ends_line: bool,
    format: &[u8],
    values: &[Using<'_>],
) -> Result<Text2, Trouble<Fault>>
    ensures { (held : List Value) → map printed_value values.now ≡ map used_value held
        → Answers (used_bytes ends_line format.now held) result }
{
    if ends_line {
        format_line(alloc, format, values)
    } else {
        format_values(alloc, format, values)
    }
}

/// Returns the values, lent.
fn used_values<'a>(alloc: Global, values: &'a [Value]) -> Result<Vec<Using<'a>>, NoMemory>
    ensures { IfOk result (λ used. map printed_value used.items ≡ map used_value values.now) }
{
    let mut used = Vec::new(alloc);
    use_all(&mut used, values)?;
    Ok(used)
}

/// Puts the values, lent, into an empty list. The list is the caller's, so that nothing has to be
/// dropped at an early end.
fn use_all<'a>(used: &mut Vec<Using<'a>>, values: &'a [Value]) -> Result<(), NoMemory>
    requires { used.old.items ≡ [] }
    ensures { OnOk result (map printed_value used.new.items ≡ map used_value values.entry.now) }
{
    for value in values {
        used.push(used_value(value))?;
    }
    Ok(())
}

/// Returns a value, lent.
fn used_value(value: &Value) -> Using<'_>
    ensures { printed_value result ≡ used_value value.entry.now }
{
    match value {
        Value::Number(number) => Using::Number(number.value()),
        Value::Text(text) => Using::Text(text.as_bytes()),
    }
}
