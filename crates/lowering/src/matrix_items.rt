//! The code of MAT: the factor of an array, and the statement.

ghost use Rattle.std.specs.Prelude.{◌≡◌, [], IfOk, OnOk};
ghost use Rattle.basic_tree.specs.TreeViews.{matrix_of};
ghost use Rattle.polish_code.specs.Code.{matrix_pieces};
ghost use Rattle.program_model.specs.declared.matrix_acts.MatrixAct.TheVariants as mat;
ghost use Rattle.program_model.specs.MatrixStatements.{form_of};
ghost use Rattle.program_model.specs.Parts.{matrix_expressions};
ghost use Rattle.lowering.specs.Emission.{with_pieces};

use crate::expressions::emit_expr;
use crate::sink::Sink;
use basic_tree::{MatrixValue, Name, Series};
use basic_values::NoMemory;
use code_places::Lookups;
use polish_code::{Item, MatrixAct, MatrixForm};
use std::alloc::Global;

/// Emits MAT READ.
pub fn emit_mat_read<K: Sink, L: Lookups>(
    alloc: Global,
    code: &mut K,
    tables: &L,
    matrices: &[Name],
) -> Result<(), NoMemory>
    ensures { OnOk result (code.new
        ≡ with_pieces K.with (L.program tables.now)
        (matrix_pieces (mat.Read matrices.now) []) code.old) }
{
    code.put(Item::Matrix(MatrixAct::Read(names_of(alloc, matrices)?)))
}

fn names_of(alloc: Global, names: &[Name]) -> Result<Series<Name>, NoMemory>
    ensures { IfOk result (λ copy. copy ≡ names.now) }
{
    let mut copy = Vec::new(alloc);
    copy.extend_from_slice(names)?;
    Ok(Series::from_vec(copy))
}

/// Emits MAT .. = ..
pub fn emit_mat_let<K: Sink, L: Lookups>(
    alloc: Global,
    code: &mut K,
    tables: &L,
    target: Name,
    value: &MatrixValue,
) -> Result<(), NoMemory>
    ensures { OnOk result (code.new
        ≡ with_pieces K.with (L.program tables.now)
        (matrix_pieces (mat.Assign target (form_of (matrix_of value.now)))
        (matrix_expressions (matrix_of value.now))) code.old) }
{
    code.put(Item::Matrix(MatrixAct::Assign {
        target,
        form: form_of(value),
    }))?;
    match value {
        MatrixValue::Scaled { factor, .. } => emit_expr(alloc, code, tables, factor),
        _ => Ok(()),
    }
}

fn form_of(value: &MatrixValue) -> MatrixForm
    ensures { result ≡ form_of (matrix_of value.now) }
{
    match value {
        MatrixValue::Zero => MatrixForm::Zero,
        MatrixValue::One => MatrixForm::One,
        MatrixValue::Identity => MatrixForm::Identity,
        MatrixValue::Copy(b) => MatrixForm::Copy(*b),
        MatrixValue::Sum(b, c) => MatrixForm::Sum(*b, *c),
        MatrixValue::Difference(b, c) => MatrixForm::Difference(*b, *c),
        MatrixValue::Product(b, c) => MatrixForm::Product(*b, *c),
        MatrixValue::Scaled { matrix, .. } => MatrixForm::Scaled(*matrix),
        MatrixValue::Transposed(b) => MatrixForm::Transposed(*b),
    }
}
