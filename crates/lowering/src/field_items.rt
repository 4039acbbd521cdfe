//! The code of FIELD, LSET and RSET. Parts are emitted from the last to the first.

ghost use Rattle.std.specs.Prelude.{◌≡◌, [], ◌∷◌, map, IfOk, OnOk};
ghost use Rattle.basic_tree.specs.TreeViews.{tree_of, field_part_of};
ghost use Rattle.polish_code.specs.Code.{file_pieces, justify_pieces};
ghost use Rattle.program_model.specs.declared.file_acts.FileAct.TheVariants as file;
ghost use Rattle.program_model.specs.FileStatements.{in_order};
ghost use Rattle.lowering.specs.Emission.{with_pieces, with_trees};

use crate::expressions::emit_expr;
use crate::sink::Sink;
use basic_tree::{Expr, FieldPart, Name, Series};
use basic_values::NoMemory;
use code_places::Lookups;
use polish_code::{FileAct, Item};
use record_fields::Side;
use std::alloc::Global;

/// Emits FIELD: the channel and all widths, and then the names are bound.
pub fn emit_field<K: Sink, L: Lookups>(
    alloc: Global,
    code: &mut K,
    tables: &L,
    channel: &Expr,
    parts: &[FieldPart],
) -> Result<(), NoMemory>
    ensures { OnOk result (code.new
        ≡ with_pieces K.with (L.program tables.now)
        (file_pieces (file.Field (map (λ part. part.name) (map field_part_of parts.now)))
        (tree_of channel.now ∷ map (λ part. part.width) (map field_part_of parts.now)) [])
        code.old) }
{
    code.put(Item::Ask(FileAct::Field(names_of(alloc, parts)?)))?;
    emit_widths(alloc, code, tables, parts)?;
    emit_expr(alloc, code, tables, channel)
}

fn names_of(alloc: Global, parts: &[FieldPart]) -> Result<Series<Name>, NoMemory>
    ensures { IfOk result (λ names. names ≡ map (λ part. part.name) (map field_part_of parts.now)) }
{
    let mut names = Vec::new(alloc);
    for part in parts {
        names.push(part.name)?;
    }
    Ok(Series::from_vec(names))
}

fn emit_widths<K: Sink, L: Lookups>(
    alloc: Global,
    code: &mut K,
    tables: &L,
    parts: &[FieldPart],
) -> Result<(), NoMemory>
    ensures { OnOk result (code.new
        ≡ with_trees K.with (L.program tables.now)
        (in_order (map (λ part. part.width) (map field_part_of parts.now))) code.old) }
{
    for place in (0..parts.len()).rev() {
        emit_expr(alloc, code, tables, &parts[place].width)?;
    }
    Ok(())
}

/// Emits LSET and RSET. The string of a variable is not put on the stack.
pub fn emit_justify<K: Sink, L: Lookups>(
    alloc: Global,
    code: &mut K,
    tables: &L,
    side: Side,
    name: Name,
    value: &Expr,
) -> Result<(), NoMemory>
    ensures { OnOk result (code.new
        ≡ with_pieces K.with (L.program tables.now) (justify_pieces side name (tree_of value.now))
        code.old) }
{
    match value {
        Expr::Variable(by) => code.put(Item::JustifyBy {
            side,
            name,
            by: *by,
        }),
        value => {
            code.put(Item::Justify { side, name })?;
            emit_expr(alloc, code, tables, value)
        }
    }
}
