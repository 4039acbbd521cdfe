//! The numbers of an array, copied out of the memory, by row and column.

ghost use Rattle.std.specs.Prelude.{◌≡◌, ◌<◌, ◌^◌, IfOk};
ghost use Rattle.basic_values.specs.Numbers.{wrap};
ghost use Rattle.basic_matrix.specs.MatrixShapes.{matrix_columns};
ghost use Rattle.basic_matrix.specs.MatrixSources.{grid_at, IsGridOf};
ghost use Rattle.basic_matrix.specs.MatrixValues.{entry_place, middle_sum};

use crate::shapes::{Bounds, matrix_columns, shape_of};
use basic_tree::Name;
use basic_values::{Int, NoMemory};
use job_memory::Memory;

/// The numbers of an array, and its bounds.
#[derive(Drop)]
pub(crate) struct Grid {
    pub(crate) numbers: Vec<Int>,
    pub(crate) shape: Bounds,
}

/// Returns the place of the element in this row and column.
pub(crate) fn entry_place(second: Option<u16>, row: usize, column: usize) -> usize
    requires row { row < 2 ^ 32 }
    requires column { column < 2 ^ 32 }
    ensures { result ≡ entry_place second row column }
{
    match second {
        Some(second) => row * (usize::from(second) + 1) + column,
        None => row,
    }
}

impl Grid {
    /// Returns the numbers of an array as they are now.
    pub(crate) fn of(memory: &Memory, name: Name) -> Result<Grid, NoMemory>
        ensures { IfOk result (IsGridOf memory.now name) }
    {
        let numbers = memory.numbers(name)?;
        Ok(Grid {
            numbers,
            shape: shape_of(memory, name),
        })
    }

    /// Returns the number in this row and column.
    pub(crate) fn at(&self, row: usize, column: usize) -> Int
        requires row { row < 2 ^ 32 }
        requires column { column < 2 ^ 32 }
        ensures { result ≡ grid_at self.now row column }
    {
        let place = entry_place(self.shape.1, row, column);
        self.numbers.get(place).copied().unwrap_or(Int::new(0))
    }
}

/// Returns the number of the product of two arrays in this row and column.
pub(crate) fn middle_sum(left: &Grid, right: &Grid, row: usize, column: usize) -> Int
    requires row { row < 2 ^ 32 }
    requires column { column < 2 ^ 32 }
    ensures { result ≡ wrap
        (middle_sum (grid_at left.now) (grid_at right.now)
        (matrix_columns left.now.shape) row column) }
{
    let mut sum = Int::new(0);
    for before in 0..usize::from(matrix_columns(left.shape)) {
        let middle = before + 1;
        sum = sum.add(left.at(row, middle).mul(right.at(middle, column)));
    }
    sum
}
