//! Elements of arrays in files.

ghost use Rattle.std.specs.Prelude.{◌≡◌};
ghost use Rattle.job_model.specs.Follow.{Follows, answered_by};
ghost use Rattle.job_model.specs.Play as play;
ghost use Rattle.program_model.specs.Elements.{value_of_element, read_act, write_act};
ghost use Rattle.program_model.specs.Variables.{second};

use crate::storage::Storage;
use crate::values::{number, number_at};
use basic_values::{Int, Stop};
use monitor_calls::Port;
use program_model::Value;
use std::alloc::Global;
use virtual_arrays::{Element, VirtualShape, read, write_number, write_text};

impl Storage {
    /// Reads an element of an array in a file, by its subscripts. Errors 46 and 9 of its channel,
    /// 31 on a channel with larger records, 55 of the subscripts, and those of the monitor.
    pub fn read_element<P: Port>(
        &mut self,
        alloc: Global,
        port: &mut P,
        array: &VirtualShape,
        subscripts: &[Value],
    ) -> Result<Value, Stop>
        ensures { (clock : play.Clock) → Follows P.who P.log port.old port.new clock clock
            (read_act array.now subscripts.now self.old) (answered_by result self.new) }
    {
        let element = read(
            alloc,
            &mut self.channels,
            &mut self.buffers,
            port,
            array,
            number_at(0, subscripts),
            second(subscripts),
        )?;
        Ok(value_of(element))
    }

    /// Stores a value to an element of an array in a file: a longer string is cut, and a shorter
    /// one is filled up with zeros. Errors as of `read_element`.
    pub fn write_element<P: Port>(
        &mut self,
        alloc: Global,
        port: &mut P,
        array: &VirtualShape,
        subscripts: &[Value],
        value: &Value,
    ) -> Result<(), Stop>
        ensures { (clock : play.Clock) → Follows P.who P.log port.old port.new clock clock
            (write_act array.now subscripts.now value.now self.old) (answered_by result self.new) }
    {
        let first = number_at(0, subscripts);
        let second = second(subscripts);
        match value {
            Value::Number(number) => write_number(
                alloc,
                &mut self.channels,
                &mut self.buffers,
                port,
                array,
                first,
                second,
                *number,
            ),
            Value::Text(text) => write_text(
                alloc,
                &mut self.channels,
                &mut self.buffers,
                port,
                array,
                first,
                second,
                text.as_bytes(),
            ),
        }
    }
}

/// Returns the second of the subscripts, if there is one.
pub fn second(subscripts: &[Value]) -> Option<Int>
    ensures { result ≡ second subscripts.now }
{
    match subscripts.get(1) {
        Some(value) => Some(number(value)),
        None => None,
    }
}

/// Returns an element's value, as a program has it.
fn value_of(element: Element) -> Value
    ensures { result ≡ value_of_element element }
{
    match element {
        Element::Number(number) => Value::Number(number),
        Element::Text(text) => Value::Text(text),
    }
}
