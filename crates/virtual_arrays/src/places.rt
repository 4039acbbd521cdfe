//! The place of an element in its file.

ghost use Rattle.std.specs.Prelude.{◌≡◌, Some};
ghost use Rattle.virtual_arrays.specs.Places.{place_of_index, element_place};

use basic_tree::Name;
use basic_values::errors::SUBSCRIPT_OUT_OF_RANGE;
use basic_values::limits::MOST_BLOCKS;
use basic_values::{Fault, Int};
use record_fields::{BUFFER_BYTES, Part, place_under};

/// An array in the file of a channel.
#[derive(Clone, Copy)]
pub struct VirtualShape {
    pub name: Name,
    pub channel: Int,
    /// The first bound.
    pub first: u16,
    pub second: Option<u16>,
    /// The byte of the file at which the array begins. Bytes are counted from 0.
    pub start: u64,
    /// The bytes of an element.
    pub size: u16,
}

/// A part of a block of a file. Blocks are counted from 1.
#[derive(Clone, Copy)]
pub struct Place {
    pub block: u16,
    pub part: Part,
}

/// Returns the block and the part of an element. Error 55: a subscript is out of range, there are
/// too few or too many, or the block is past the largest file.
pub fn element_place(shape: &VirtualShape, first: Int, second: Option<Int>) -> Result<Place, Fault>
    ensures { result ≡ element_place shape.now first second }
{
    match place_under(shape.first, shape.second, first, second) {
        Some(index) => place_of_index(shape.start, shape.size, index),
        None => Err(Fault::new(SUBSCRIPT_OUT_OF_RANGE)),
    }
}

/// Returns the place of the element with this many before it. A byte whose number does not fit in
/// 64 bits is also past the largest file.
fn place_of_index(start: u64, size: u16, index: usize) -> Result<Place, Fault>
    ensures { result ≡ place_of_index start size (Some index) }
{
    let before = (index as u64).saturating_mul(u64::from(size));
    let byte = start.saturating_add(before);
    let blocks = byte / BUFFER_BYTES as u64;
    if blocks >= u64::from(MOST_BLOCKS) {
        return Err(Fault::new(SUBSCRIPT_OUT_OF_RANGE));
    }
    Ok(Place {
        block: blocks as u16 + 1,
        part: Part {
            offset: (byte % BUFFER_BYTES as u64) as u16,
            length: size,
        },
    })
}
