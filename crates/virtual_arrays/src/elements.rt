//! Elements of arrays in files, read and written in the window of their channel.

ghost use Rattle.std.specs.Prelude.{◌≡◌, ◌≤◌, length, take, Some, IfOk};
ghost use Rattle.job_model.specs.Follow.{Follows, answered_by};
ghost use Rattle.job_model.specs.Play as play;
ghost use Rattle.record_fields.specs.Buffers.{IsChannel, buffer_of};
ghost use Rattle.record_fields.specs.Parts.{part_of};
ghost use Rattle.channels.specs.Files.{Files, tested};
ghost use Rattle.channels.specs.Seen.{files, states_of};
ghost use Rattle.virtual_arrays.specs.declared.elements.Element.TheVariants as element;
ghost use Rattle.virtual_arrays.specs.Elements.{low_first, low_first_number, without_zeros};
ghost use Rattle.virtual_arrays.specs.Elements.{element_of, located, reads_at, reads_element};
ghost use Rattle.virtual_arrays.specs.Elements.{writes_at, writes_element};

use crate::places::{Place, VirtualShape, element_place};
use basic_values::errors::ILLEGAL_BYTE_COUNT;
use basic_values::{Fault, Int, NoMemory, Stop, Text};
use channels::Channels;
use monitor_calls::Port;
use record_fields::Buffers;
use std::alloc::Global;

/// The value of an element of an array in a file.
#[derive(Drop)]
pub enum Element {
    Number(Int),
    Text(Text),
}

/// Reads an element. Errors: 46 and 9 of its channel; 31 if the channel has larger records; 55 if
/// there is no such element; then those of the window's requests.
pub fn read<P: Port>(
    alloc: Global,
    channels: &mut Channels,
    buffers: &mut Buffers,
    port: &mut P,
    shape: &VirtualShape,
    first: Int,
    second: Option<Int>,
) -> Result<Element, Stop>
    ensures { (clock : play.Clock) → Follows P.who P.log port.old port.new clock clock
        (reads_element shape.now first second (files channels.old buffers.old))
        (answered_by result (files channels.new buffers.new)) }
{
    let (channel, place) = locate(channels, shape, first, second)?;
    let text = shape.name.text;
    read_at(alloc, channels, buffers, port, text, channel, place)
}

fn read_at<P: Port>(
    alloc: Global,
    channels: &mut Channels,
    buffers: &mut Buffers,
    port: &mut P,
    text: bool,
    channel: u8,
    place: Place,
) -> Result<Element, Stop>
    requires { IsChannel channel }
    ensures { (clock : play.Clock) → Follows P.who P.log port.old port.new clock clock
        (reads_at text channel place (files channels.old buffers.old))
        (answered_by result (files channels.new buffers.new)) }
{
    channels.window(alloc, buffers, port, channel, place.block, false)?;
    let element = element_of(alloc, text, buffers.part(channel, place.part))?;
    Ok(element)
}

/// Writes an element: a longer string is cut, and a shorter one is filled with zeros. Errors as for
/// `read`.
pub fn write<P: Port>(
    alloc: Global,
    channels: &mut Channels,
    buffers: &mut Buffers,
    port: &mut P,
    shape: &VirtualShape,
    first: Int,
    second: Option<Int>,
    value: &Element,
) -> Result<(), Stop>
    ensures { (clock : play.Clock) → Follows P.who P.log port.old port.new clock clock
        (writes_element shape.now first second value.now (files channels.old buffers.old))
        (answered_by result (files channels.new buffers.new)) }
{
    match value {
        Element::Number(number) => {
            write_number(
                alloc, channels, buffers, port, shape, first, second, *number,
            )
        }
        Element::Text(text) => {
            write_text(
                alloc,
                channels,
                buffers,
                port,
                shape,
                first,
                second,
                text.as_bytes(),
            )
        }
    }
}

/// Writes a number to an element, as `write` does.
pub fn write_number<P: Port>(
    alloc: Global,
    channels: &mut Channels,
    buffers: &mut Buffers,
    port: &mut P,
    shape: &VirtualShape,
    first: Int,
    second: Option<Int>,
    number: Int,
) -> Result<(), Stop>
    ensures { (clock : play.Clock) → Follows P.who P.log port.old port.new clock clock
        (writes_element shape.now first second (element.Number number)
        (files channels.old buffers.old))
        (answered_by result (files channels.new buffers.new)) }
{
    let bytes = low_first(number);
    write_text(alloc, channels, buffers, port, shape, first, second, &bytes)
}

/// Writes the bytes of a string to an element, as `write` does.
pub fn write_text<P: Port>(
    alloc: Global,
    channels: &mut Channels,
    buffers: &mut Buffers,
    port: &mut P,
    shape: &VirtualShape,
    first: Int,
    second: Option<Int>,
    bytes: &[u8],
) -> Result<(), Stop>
    ensures { (clock : play.Clock) → Follows P.who P.log port.old port.new clock clock
        (writes_element shape.now first second (element.Text bytes.now)
        (files channels.old buffers.old))
        (answered_by result (files channels.new buffers.new)) }
{
    let (channel, place) = locate(channels, shape, first, second)?;
    write_at(alloc, channels, buffers, port, channel, place, bytes)
}

fn write_at<P: Port>(
    alloc: Global,
    channels: &mut Channels,
    buffers: &mut Buffers,
    port: &mut P,
    channel: u8,
    place: Place,
    bytes: &[u8],
) -> Result<(), Stop>
    requires { IsChannel channel }
    ensures { (clock : play.Clock) → Follows P.who P.log port.old port.new clock clock
        (writes_at channel place (element.Text bytes.now) (files channels.old buffers.old))
        (answered_by result (files channels.new buffers.new)) }
{
    channels.window(alloc, buffers, port, channel, place.block, true)?;
    buffers.fill_part(channel, place.part, bytes);
    Ok(())
}

/// Returns the channel and the part of its file that an element is; an error ends the statement.
fn locate(
    channels: &Channels,
    shape: &VirtualShape,
    first: Int,
    second: Option<Int>,
) -> Result<(u8, Place), Stop>
    ensures judged { (files : Files) → answered_by result files
        ≡ Some (tested (located shape.now first second (states_of channels.now)) files) }
    ensures channel { IfOk result (λ at. IsChannel at.0) }
{
    match located(channels, shape, first, second) {
        Ok(at) => Ok(at),
        Err(fault) => Err(Stop::Fault(fault)),
    }
}

fn located(
    channels: &Channels,
    shape: &VirtualShape,
    first: Int,
    second: Option<Int>,
) -> Result<(u8, Place), Fault>
    ensures which { result ≡ located shape.now first second (states_of channels.now) }
    ensures channel { IfOk result (λ at. IsChannel at.0) }
{
    let channel = channels.opened(shape.channel)?;
    if !channels.state(channel).size.is_single() {
        return Err(Fault::new(ILLEGAL_BYTE_COUNT));
    }
    let place = element_place(shape, first, second)?;
    Ok((channel, place))
}

/// Returns the two bytes of a number, the low one first.
fn low_first(number: Int) -> [u8; 2]
    ensures { result ≡ low_first number }
{
    number.value().to_le_bytes()
}

/// Returns the value of an element's bytes.
fn element_of(alloc: Global, text: bool, bytes: &[u8]) -> Result<Element, NoMemory>
    ensures { IfOk result (λ element. element ≡ element_of text bytes.now) }
{
    if text {
        Ok(Element::Text(text_of(alloc, bytes)?))
    } else {
        Ok(Element::Number(number_of(bytes)))
    }
}

/// Returns the number of two bytes, the low one first; a missing byte counts as 0.
fn number_of(bytes: &[u8]) -> Int
    ensures { result ≡ low_first_number bytes.now }
{
    let low = bytes.first().copied().unwrap_or(0);
    let high = bytes.get(1).copied().unwrap_or(0);
    Int::new(i16::from_be_bytes([high, low]))
}

/// Returns the bytes without the zeros at their end, as a string.
fn text_of(alloc: Global, bytes: &[u8]) -> Result<Text, NoMemory>
    ensures { IfOk result (λ text. text ≡ without_zeros bytes.now) }
{
    match Text::of(alloc, &bytes[..kept_bytes(bytes)]) {
        Ok(text) => Ok(text),
        Err(_) => Err(NoMemory),
    }
}

/// Returns the number of bytes without the zeros at their end.
fn kept_bytes(bytes: &[u8]) -> usize
    ensures kept { take result bytes.now ≡ without_zeros bytes.now }
    ensures inside { result ≤ length bytes.now }
{
    for place in (0..bytes.len()).rev() {
        if bytes[place] != 0 {
            return place + 1;
        }
    }
    0
}
