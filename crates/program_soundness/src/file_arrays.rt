//! The arrays in files of a program: the manual's DIM #.
//!
//! `arrays_in` returns them in the order of the source, each with its place in its file, after
//! those of its statement before it. `by_name` is the table in which one is found by its name.

ghost use Rattle.std.specs.Prelude.{◌≡◌, ◌≤◌, ◌++◌, ◌^◌, map, find, pos, IfOk, OnOk};
ghost use Rattle.std.specs.List.{flat_map};
ghost use Rattle.std.specs.Map.{lookup};
ghost use Rattle.basic_values.specs.Numbers.{wrap};
ghost use Rattle.basic_tree.specs.declared.names.Name.{Name};
ghost use Rattle.basic_tree.specs.StatementViews.{statement_of};
ghost use Rattle.job_memory.specs.Names.{at_name};
ghost use Rattle.program_model.specs.FileArrays.{element_size, most_file_bytes, begins_at};
ghost use Rattle.program_model.specs.FileArrays.{array_from, end_of, arrays_from, arrays_by};

use basic_tree::{FileShape, Name, Statement};
use basic_values::limits::{BLOCK_BYTES, MOST_BLOCKS};
use basic_values::{Int, NoMemory};
use program_model::{NUMBER_BYTES, TEXT_BYTES};
use record_fields::count;
use std::alloc::Global;
use std::collections::BTreeMap;
use virtual_arrays::VirtualShape;

/// The bytes of the largest file.
const MOST_FILE_BYTES: u64 = MOST_BLOCKS as u64 * BLOCK_BYTES as u64;

/// Returns the arrays in files that these statements declare.
pub fn arrays_in(alloc: Global, all: &[&Statement]) -> Result<Vec<VirtualShape>, NoMemory>
    ensures { IfOk result (λ arrays. arrays.items
        ≡ flat_map arrays_by (map (λ r. statement_of r.now) all.now)) }
{
    let mut arrays = Vec::new(alloc);
    for statement in all {
        add_declared(&mut arrays, statement)?;
    }
    Ok(arrays)
}

/// Adds the arrays of a DIM #.
fn add_declared(arrays: &mut Vec<VirtualShape>, statement: &Statement) -> Result<(), NoMemory>
    ensures { OnOk result (arrays.new.items
        ≡ arrays.old.items ++ arrays_by (statement_of statement.now)) }
{
    match statement {
        Statement::DimFile { channel, shapes } => add_shapes(arrays, *channel, shapes.as_slice()),
        _ => Ok(()),
    }
}

/// Adds arrays that follow one another in the file of a channel.
fn add_shapes(
    arrays: &mut Vec<VirtualShape>,
    channel: u16,
    shapes: &[FileShape],
) -> Result<(), NoMemory>
    ensures { OnOk result (arrays.new.items
        ≡ arrays.old.items ++ arrays_from channel 0 shapes.now) }
{
    let mut behind = 0;
    for shape in shapes {
        let array = array_from(channel, behind, shape);
        behind = end_of(&array);
        arrays.push(array)?;
    }
    Ok(())
}

/// Returns an array that comes after this many bytes of its file.
fn array_from(channel: u16, behind: u64, array: &FileShape) -> VirtualShape
    requires { behind ≤ 2 ^ 49 }
    ensures { result ≡ array_from channel behind array.now }
{
    let size = element_size(array);
    VirtualShape {
        name: array.shape.name,
        channel: wrapped(channel),
        first: array.shape.first,
        second: array.shape.second,
        start: begins_at(size, behind),
        size,
    }
}

/// Returns the bytes of an element.
fn element_size(array: &FileShape) -> u16
    ensures { result ≡ element_size array.now }
{
    if array.shape.name.text {
        array.size.unwrap_or(TEXT_BYTES)
    } else {
        NUMBER_BYTES
    }
}

/// Returns the low 16 bits of a number.
fn wrapped(number: u16) -> Int
    ensures { result ≡ wrap (pos number) }
{
    Int::new(i16::from_be_bytes(number.to_be_bytes()))
}

/// Returns the next multiple of an element's size, or the end of the largest file if the multiple
/// is past that. An array whose elements have no bytes begins at 0.
fn begins_at(size: u16, behind: u64) -> u64
    requires { behind ≤ 2 ^ 49 }
    ensures { result ≡ begins_at size behind }
{
    let size = u64::from(size);
    if size == 0 {
        return 0;
    }
    let next = (behind + (size - 1)) / size * size;
    next.min(MOST_FILE_BYTES)
}

/// Returns the number of bytes of its file up to the end of an array.
fn end_of(array: &VirtualShape) -> u64
    requires { array.now.start ≤ most_file_bytes }
    ensures value { result ≡ end_of array.now }
    ensures small { result ≤ 2 ^ 49 }
{
    array.start + count(array.first, array.second) as u64 * u64::from(array.size)
}

/// Returns the first of these arrays for each name.
pub fn by_name(
    alloc: Global,
    arrays: &[VirtualShape],
) -> Result<BTreeMap<Name, VirtualShape>, NoMemory>
    ensures { IfOk result (λ named. (x : Name) → lookup (at_name x) named.entries
        ≡ find (λ array. at_name x array.name) arrays.now) }
{
    let mut named = BTreeMap::new(alloc);
    for place in (0..arrays.len()).rev() {
        let array = arrays[place];
        named.insert(array.name, array)?;
    }
    Ok(named)
}
