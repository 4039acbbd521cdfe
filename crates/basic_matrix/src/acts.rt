//! What MAT does to a memory.

ghost use Rattle.std.specs.Prelude.{◌≡◌, IfOk};
ghost use Rattle.job_memory.specs.Matrices.{number_in_list, renumbered};
ghost use Rattle.basic_matrix.specs.MatrixActs.{assigned, with_value, row_numbers, Touches};
ghost use Rattle.basic_matrix.specs.MatrixActs.{StoresValue, HasRow};

use crate::grids::entry_place;
use crate::shapes::{fits, matrix_columns, shape_of};
use crate::sources::Source;
use crate::values::MatValue;
use basic_tree::{Name, Shape};
use basic_values::errors::SUBSCRIPT_OUT_OF_RANGE;
use basic_values::{Fault, Halt, Int, NoMemory, Stop, Trouble};
use job_memory::{IMPLIED_BOUND, Memory};

/// Makes the array, with two subscripts up to 10, if it does not exist. The only halt is that the
/// memory is full.
pub fn touch(memory: &mut Memory, name: Name) -> Result<(), Trouble<Halt>>
    ensures { Touches name memory.old memory.new result }
{
    if memory.bounds(name).is_some() {
        return Ok(());
    }
    memory.dim(Shape {
        name,
        first: IMPLIED_BOUND,
        second: Some(IMPLIED_BOUND),
    })
}

/// Stores a value to the elements of an array whose subscripts are all 1 or more. The value is
/// computed before anything is stored, so the target may be among its arrays. Error 55: the bounds
/// do not fit; then nothing is stored. An array that does not exist has no elements.
pub fn assign(memory: &mut Memory, target: Name, value: &MatValue) -> Result<(), Stop>
    ensures { StoresValue memory.old memory.new (assigned target value.now memory.old) result }
{
    if !fits(memory, target, value) {
        return Err(Stop::Fault(Fault::new(SUBSCRIPT_OUT_OF_RANGE)));
    }
    let numbers = new_numbers(memory, target, value)?;
    memory.set_numbers(target, &numbers);
    Ok(())
}

/// Returns the target's numbers, with those of the value at the places without a subscript 0.
fn new_numbers(memory: &Memory, target: Name, value: &MatValue) -> Result<Vec<Int>, NoMemory>
    ensures { IfOk result (λ list. renumbered target (number_in_list list.items) memory.now
        ≡ with_value target value.now memory.now) }
{
    let source = Source::of(memory, value)?;
    let mut numbers = memory.numbers(target)?;
    source.fill(shape_of(memory, target), numbers.as_mut_slice());
    Ok(numbers)
}

/// Returns the numbers of a row, from column 1 on. A row of an array with one subscript is one
/// number.
pub fn row(memory: &Memory, name: Name, row: u16) -> Result<Vec<Int>, NoMemory>
    requires { HasRow memory.now name row }
    ensures { IfOk result (λ list. list.items ≡ row_numbers memory.now name row) }
{
    let shape = shape_of(memory, name);
    let place = entry_place(shape.1, usize::from(row), 1);
    memory.numbers_from(name, place, usize::from(matrix_columns(shape)))
}
