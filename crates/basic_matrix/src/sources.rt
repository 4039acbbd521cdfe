//! A value whose arrays were copied out of the memory, so that storing it reads nothing from there.

ghost use Rattle.std.specs.Prelude.{◌≡◌, ◌<◌, ◌≤◌, ◌^◌, length, IfOk};
ghost use Rattle.record_fields.specs.Bounds.{count};
ghost use Rattle.basic_matrix.specs.MatrixSources.{source_at, StandsFor, HasNumbers};

use crate::grids::{Grid, middle_sum};
use crate::shapes::Bounds;
use crate::values::MatValue;
use basic_values::{Int, NoMemory};
use job_memory::{Memory, is_inner, subscripts_at};
use record_fields::count;

/// What MAT stores, with the numbers of its arrays.
#[derive(Drop)]
pub(crate) enum Source {
    Constant(Int),
    Diagonal,
    Copied(Grid),
    Sum(Grid, Grid),
    Difference(Grid, Grid),
    Product(Grid, Grid),
    Scaled(Int, Grid),
    Turned(Grid),
}

impl Source {
    /// Returns the value over the numbers as they are now.
    pub(crate) fn of(memory: &Memory, value: &MatValue) -> Result<Source, NoMemory>
        ensures { IfOk result (StandsFor memory.now value.now) }
    {
        match value {
            MatValue::Zero => Ok(Source::Constant(Int::new(0))),
            MatValue::One => Ok(Source::Constant(Int::new(1))),
            MatValue::Identity => Ok(Source::Diagonal),
            MatValue::Copy(b) => Ok(Source::Copied(Grid::of(memory, *b)?)),
            MatValue::Sum(b, c) => Ok(Source::Sum(Grid::of(memory, *b)?, Grid::of(memory, *c)?)),
            MatValue::Difference(b, c) => {
                Ok(Source::Difference(Grid::of(memory, *b)?, Grid::of(memory, *c)?))
            }
            MatValue::Product(b, c) => {
                Ok(Source::Product(Grid::of(memory, *b)?, Grid::of(memory, *c)?))
            }
            MatValue::Scaled(n, b) => Ok(Source::Scaled(*n, Grid::of(memory, *b)?)),
            MatValue::Transposed(b) => Ok(Source::Turned(Grid::of(memory, *b)?)),
        }
    }

    /// Returns the number in this row and column.
    fn at(&self, row: usize, column: usize) -> Int
        requires row { row < 2 ^ 32 }
        requires column { column < 2 ^ 32 }
        ensures { result ≡ source_at self.now row column }
    {
        match self {
            Source::Constant(n) => *n,
            Source::Diagonal => Int::new(if row == column { 1 } else { 0 }),
            Source::Copied(b) => b.at(row, column),
            Source::Sum(b, c) => b.at(row, column).add(c.at(row, column)),
            Source::Difference(b, c) => b.at(row, column).sub(c.at(row, column)),
            Source::Product(b, c) => middle_sum(b, c, row, column),
            Source::Scaled(n, b) => n.mul(b.at(row, column)),
            Source::Turned(b) => b.at(column, row),
        }
    }

    /// Writes the numbers of an array with these bounds to their places, except those with a
    /// subscript 0.
    pub(crate) fn fill(&self, shape: Bounds, numbers: &mut [Int])
        requires { length numbers.old ≤ count shape.0 shape.1 }
        ensures { HasNumbers (source_at self.now) shape numbers.new }
    {
        let places = count(shape.0, shape.1).min(numbers.len());
        for place in 0..places {
            let (row, column) = subscripts_at(shape.1, place);
            if is_inner((row, column)) {
                numbers[place] = self.at(row, column);
            }
        }
    }
}
