//! What the statements of MAT do.

use basic_tree::{Name, Separator, Series};

/// What MAT stores in an array: made of nothing, or of arrays by their names.
#[derive(Clone, Copy)]
pub enum MatrixForm {
    /// ZER, 0 everywhere.
    Zero,
    /// CON, 1 everywhere.
    One,
    /// IDN, 1 if both subscripts are equal, else 0.
    Identity,
    Copy(Name),
    Sum(Name, Name),
    Difference(Name, Name),
    Product(Name, Name),
    /// An array times a number, which is the operand.
    Scaled(Name),
    /// TRN, the subscripts exchanged.
    Transposed(Name),
}

/// What a statement of MAT does with whole arrays.
#[derive(Drop)]
pub enum MatrixAct {
    /// The elements take the next items of DATA.
    Read(Series<Name>),
    /// The separator follows the name.
    Print {
        matrix: Name,
        separator: Option<Separator>,
    },
    Assign {
        target: Name,
        form: MatrixForm,
    },
}
