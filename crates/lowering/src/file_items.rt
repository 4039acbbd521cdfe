//! The code of statements on files: the operands, and then the request. Parts are emitted from the
//! last to the first.

ghost use Rattle.std.specs.Prelude.{◌≡◌, [], ◌∷◌, map, option_map, OnOk};
ghost use Rattle.basic_tree.specs.TreeViews.{tree_of, close_channel_of};
ghost use Rattle.polish_code.specs.Code.{file_pieces, close_pieces};
ghost use Rattle.program_model.specs.declared.file_acts.FileAct.TheVariants as file;
ghost use Rattle.program_model.specs.FileStatements.{or_zero, kind_for};
ghost use Rattle.lowering.specs.Emission.{with_expression, with_pieces};

use crate::expressions::emit_expr;
use crate::sink::Sink;
use basic_tree::{CloseChannel, Expr, OpenFor};
use basic_values::NoMemory;
use code_places::Lookups;
use monitor_calls::OpenKind;
use polish_code::{FileAct, Item};
use std::alloc::Global;

/// Emits an operand, or 0 if it is left out.
fn emit_operand<K: Sink, L: Lookups>(
    alloc: Global,
    code: &mut K,
    tables: &L,
    operand: &Option<Expr>,
) -> Result<(), NoMemory>
    ensures { OnOk result (code.new
        ≡ with_expression K.with (L.program tables.now)
        (or_zero (option_map tree_of operand.now)) code.old) }
{
    match operand {
        None => code.put(Item::Number(0)),
        Some(e) => emit_expr(alloc, code, tables, e),
    }
}

/// Emits OPEN, with its operands in the order of the source.
pub fn emit_open<K: Sink, L: Lookups>(
    alloc: Global,
    code: &mut K,
    tables: &L,
    purpose: OpenFor,
    name: &Expr,
    channel: &Expr,
    size: &Option<Expr>,
    cluster: &Option<Expr>,
    mode: &Option<Expr>,
) -> Result<(), NoMemory>
    ensures { OnOk result (code.new
        ≡ with_pieces K.with (L.program tables.now)
        (file_pieces (file.Open (kind_for purpose))
        (tree_of name.now ∷ tree_of channel.now ∷ or_zero (option_map tree_of size.now)
        ∷ or_zero (option_map tree_of cluster.now)
        ∷ or_zero (option_map tree_of mode.now) ∷ []) []) code.old) }
{
    code.put(Item::Ask(FileAct::Open(kind_for(purpose))))?;
    emit_operand(alloc, code, tables, mode)?;
    emit_operand(alloc, code, tables, cluster)?;
    emit_operand(alloc, code, tables, size)?;
    emit_expr(alloc, code, tables, channel)?;
    emit_expr(alloc, code, tables, name)
}

fn kind_for(purpose: OpenFor) -> OpenKind
    ensures { result ≡ kind_for purpose }
{
    match purpose {
        OpenFor::Input => OpenKind::Input,
        OpenFor::Output => OpenKind::Output,
        OpenFor::Either => OpenKind::Either,
    }
}

/// Emits CLOSE: the channels one after another.
pub fn emit_close<K: Sink, L: Lookups>(
    alloc: Global,
    code: &mut K,
    tables: &L,
    channels: &[CloseChannel],
) -> Result<(), NoMemory>
    ensures { OnOk result (code.new
        ≡ with_pieces K.with (L.program tables.now)
        (close_pieces (map close_channel_of channels.now)) code.old) }
{
    for place in (0..channels.len()).rev() {
        emit_with_one(alloc, code, tables, FileAct::Close, &channels[place].number)?;
    }
    Ok(())
}

/// Emits a statement with one operand.
pub fn emit_with_one<K: Sink, L: Lookups>(
    alloc: Global,
    code: &mut K,
    tables: &L,
    act: FileAct,
    operand: &Expr,
) -> Result<(), NoMemory>
    ensures { OnOk result (code.new
        ≡ with_pieces K.with (L.program tables.now)
        (file_pieces act (tree_of operand.now ∷ []) []) code.old) }
{
    code.put(Item::Ask(act))?;
    emit_expr(alloc, code, tables, operand)
}

/// Emits a statement with two operands.
pub fn emit_with_two<K: Sink, L: Lookups>(
    alloc: Global,
    code: &mut K,
    tables: &L,
    act: FileAct,
    first: &Expr,
    second: &Expr,
) -> Result<(), NoMemory>
    ensures { OnOk result (code.new
        ≡ with_pieces K.with (L.program tables.now)
        (file_pieces act (tree_of first.now ∷ tree_of second.now ∷ []) []) code.old) }
{
    code.put(Item::Ask(act))?;
    emit_expr(alloc, code, tables, second)?;
    emit_expr(alloc, code, tables, first)
}

/// Emits GET or PUT: a channel, and a block that may be left out.
pub fn emit_with_block<K: Sink, L: Lookups>(
    alloc: Global,
    code: &mut K,
    tables: &L,
    act: FileAct,
    channel: &Expr,
    block: &Option<Expr>,
) -> Result<(), NoMemory>
    ensures { OnOk result (code.new
        ≡ with_pieces K.with (L.program tables.now)
        (file_pieces act (tree_of channel.now ∷ or_zero (option_map tree_of block.now) ∷ []) [])
        code.old) }
{
    code.put(Item::Ask(act))?;
    emit_operand(alloc, code, tables, block)?;
    emit_expr(alloc, code, tables, channel)
}
