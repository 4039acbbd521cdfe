//! What MAT stores in an array.

use basic_tree::Name;
use basic_values::Int;

/// What MAT stores in an array: a constant, or computed from arrays by their names.
#[derive(Clone, Copy)]
pub enum MatValue {
    /// ZER: 0 everywhere.
    Zero,
    /// CON: 1 everywhere.
    One,
    /// IDN: 1 if both subscripts are equal, else 0.
    Identity,
    Copy(Name),
    Sum(Name, Name),
    Difference(Name, Name),
    Product(Name, Name),
    /// A number times an array.
    Scaled(Int, Name),
    /// TRN: the array with its subscripts exchanged.
    Transposed(Name),
}
