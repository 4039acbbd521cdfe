//! The bounds of matrices, and whether those of a statement fit.

ghost use Rattle.std.specs.Prelude.{◌≡◌};
ghost use Rattle.basic_matrix.specs.MatrixShapes.{shape_of, matrix_columns, same_second};
ghost use Rattle.basic_matrix.specs.MatrixShapes.{same_shape, is_square, is_product, is_turned};
ghost use Rattle.basic_matrix.specs.MatrixShapes.{fits};

use crate::values::MatValue;
use basic_tree::Name;
use job_memory::Memory;

/// The first bound, and the second one of an array that has two.
pub(crate) type Bounds = (u16, Option<u16>);

/// Returns the bounds of an array; an array that does not exist has no rows.
pub(crate) fn shape_of(memory: &Memory, name: Name) -> Bounds
    ensures { result ≡ shape_of memory.now name }
{
    memory.bounds(name).unwrap_or((0, None))
}

/// Returns how many elements a row has, without that of subscript 0; one if there is one subscript.
pub(crate) fn matrix_columns(shape: Bounds) -> u16
    ensures { result ≡ matrix_columns shape }
{
    shape.1.unwrap_or(1)
}

fn same_second(a: Option<u16>, b: Option<u16>) -> bool
    ensures { result ≡ same_second a b }
{
    match (a, b) {
        (None, None) => true,
        (Some(a), Some(b)) => a == b,
        (None, Some(_)) | (Some(_), None) => false,
    }
}

fn same_shape(a: Bounds, b: Bounds) -> bool
    ensures { result ≡ same_shape a b }
{
    a.0 == b.0 && same_second(a.1, b.1)
}

/// Returns whether IDN fits.
fn is_square(shape: Bounds) -> bool
    ensures { result ≡ is_square shape }
{
    match shape.1 {
        Some(second) => shape.0 == second,
        None => false,
    }
}

/// Returns whether the product of two arrays has this shape.
fn is_product(left: Bounds, right: Bounds, shape: Bounds) -> bool
    ensures { result ≡ is_product left right shape }
{
    match (left.1, right.1, shape.1) {
        (Some(middle), Some(last), Some(second)) => {
            middle == right.0 && shape.0 == left.0 && second == last
        }
        _ => false,
    }
}

/// Returns whether TRN of an array has this shape.
fn is_turned(of: Bounds, shape: Bounds) -> bool
    ensures { result ≡ is_turned of shape }
{
    match (of.1, shape.1) {
        (Some(last), Some(second)) => shape.0 == last && second == of.0,
        _ => false,
    }
}

/// Returns whether the arrays of the value fit each other, and the target fits the value.
pub(crate) fn fits(memory: &Memory, target: Name, value: &MatValue) -> bool
    ensures { result ≡ fits (shape_of memory.now) target value.now }
{
    let shape = shape_of(memory, target);
    match value {
        MatValue::Zero | MatValue::One => true,
        MatValue::Identity => is_square(shape),
        MatValue::Copy(name) | MatValue::Scaled(_, name) => {
            same_shape(shape, shape_of(memory, *name))
        }
        MatValue::Sum(left, right) | MatValue::Difference(left, right) => {
            let first = shape_of(memory, *left);
            same_shape(first, shape_of(memory, *right)) && same_shape(shape, first)
        }
        MatValue::Product(left, right) => {
            is_product(shape_of(memory, *left), shape_of(memory, *right), shape)
        }
        MatValue::Transposed(name) => is_turned(shape_of(memory, *name), shape),
    }
}
