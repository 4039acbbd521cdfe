//! The code of PRINT #, PRINT USING, INPUT # and INPUT LINE #. The channel is on the stack below
//! what is written. Parts are emitted from the last to the first.

ghost use Rattle.std.specs.Prelude.{◌≡◌, [], ◌∷◌, map, length, is_some, option_map, IfOk, OnOk};
ghost use Rattle.basic_tree.specs.TreeViews.{tree_of, target_of, printed_of, item_of};
ghost use Rattle.basic_tree.specs.TreeViews.{using_item_of};
ghost use Rattle.basic_tree.specs.declared.expressions.Operator.TheVariants as operator;
ghost use Rattle.job_model.specs.Texts.{line_end};
ghost use Rattle.program_model.specs.FileStatements.{in_order};
ghost use Rattle.program_model.specs.Parts.{count};
ghost use Rattle.program_model.specs.PrintingOnChannels.{or_terminal, used_values};
ghost use Rattle.polish_code.specs.declared.items.Item.TheVariants as item;
ghost use Rattle.polish_code.specs.Code.{Ex, It, input_pieces, printed_on_pieces};
ghost use Rattle.polish_code.specs.Code.{separator_on_pieces, print_on_pieces, end_on_pieces};
ghost use Rattle.polish_code.specs.Code.{line_end_pieces, used_pieces};
ghost use Rattle.lowering.specs.Emission.{with_expression, with_trees, with_pieces};

use crate::expressions::emit_expr;
use crate::simple::emit_targets;
use crate::sink::Sink;
use basic_tree::{Expr, Name, Operator, PrintItem, Printed, Separator, Target, UsingItem};
use basic_values::{NoMemory, Text};
use code_places::{Lookups, counted, next};
use polish_code::Item;
use std::alloc::Global;

// PRINT #

/// Emits PRINT #. The channel is tested before the first item.
pub fn emit_print_on<K: Sink, L: Lookups>(
    alloc: Global,
    code: &mut K,
    tables: &L,
    channel: &Expr,
    items: &[PrintItem],
    last: &Option<Printed>,
) -> Result<(), NoMemory>
    ensures { OnOk result (code.new
        ≡ with_pieces K.with (L.program tables.now)
        (Ex (tree_of channel.now) ∷ It item.TestOutput
        ∷ print_on_pieces (map item_of items.now) (end_on_pieces (map item_of items.now)
        (option_map printed_of last.now))) code.old) }
{
    emit_items_on(alloc, code, tables, items, last)?;
    code.put(Item::TestOutput)?;
    emit_expr(alloc, code, tables, channel)
}

fn emit_items_on<K: Sink, L: Lookups>(
    alloc: Global,
    code: &mut K,
    tables: &L,
    items: &[PrintItem],
    last: &Option<Printed>,
) -> Result<(), NoMemory>
    ensures { OnOk result (code.new
        ≡ with_pieces K.with (L.program tables.now)
        (print_on_pieces (map item_of items.now) (end_on_pieces (map item_of items.now)
        (option_map printed_of last.now))) code.old) }
{
    emit_end_on(alloc, code, tables, items, last)?;
    for place in (0..items.len()).rev() {
        emit_item_on(alloc, code, tables, &items[place])?;
    }
    Ok(())
}

fn emit_end_on<K: Sink, L: Lookups>(
    alloc: Global,
    code: &mut K,
    tables: &L,
    items: &[PrintItem],
    last: &Option<Printed>,
) -> Result<(), NoMemory>
    ensures { OnOk result (code.new
        ≡ with_pieces K.with (L.program tables.now)
        (end_on_pieces (map item_of items.now) (option_map printed_of last.now)) code.old) }
{
    match last {
        Some(last) => {
            emit_line_end(alloc, code, tables)?;
            emit_printed_on(alloc, code, tables, last)
        }
        None => match items {
            [] => emit_line_end(alloc, code, tables),
            [_, ..] => code.put(Item::Discard),
        },
    }
}

fn emit_line_end<K: Sink, L: Lookups>(
    alloc: Global,
    code: &mut K,
    tables: &L,
) -> Result<(), NoMemory>
    ensures { OnOk result (code.new
        ≡ with_pieces K.with (L.program tables.now) line_end_pieces code.old) }
{
    code.put(Item::Discard)?;
    code.put(Item::WriteOn)?;
    code.put(Item::Quoted(line_end(alloc)?))
}

/// Returns CR and LF.
fn line_end(alloc: Global) -> Result<Text, NoMemory>
    ensures { IfOk result (λ text. text ≡ line_end) }
{
    match Text::of(alloc, b"\r\n") {
        Ok(text) => Ok(text),
        Err(_) => Err(NoMemory),
    }
}

fn emit_item_on<K: Sink, L: Lookups>(
    alloc: Global,
    code: &mut K,
    tables: &L,
    item: &PrintItem,
) -> Result<(), NoMemory>
    ensures { OnOk result (code.new
        ≡ with_pieces K.with (L.program tables.now)
        (printed_on_pieces (printed_of item.now.printed)
        (separator_on_pieces item.now.separator [])) code.old) }
{
    emit_separator_on(code, tables, item.separator)?;
    emit_printed_on(alloc, code, tables, &item.printed)
}

fn emit_separator_on<K: Sink, L: Lookups>(
    code: &mut K,
    tables: &L,
    separator: Separator,
) -> Result<(), NoMemory>
    ensures { OnOk result (code.new
        ≡ with_pieces K.with (L.program tables.now) (separator_on_pieces separator []) code.old) }
{
    match separator {
        Separator::Comma => {
            code.put(Item::WriteOn)?;
            code.put(Item::ZoneText)
        }
        Separator::Semicolon => Ok(()),
    }
}

fn emit_printed_on<K: Sink, L: Lookups>(
    alloc: Global,
    code: &mut K,
    tables: &L,
    printed: &Printed,
) -> Result<(), NoMemory>
    ensures { OnOk result (code.new
        ≡ with_pieces K.with (L.program tables.now)
        (printed_on_pieces (printed_of printed.now) []) code.old) }
{
    code.put(Item::WriteOn)?;
    match printed {
        Printed::Value(e) => emit_expr(alloc, code, tables, e),
        Printed::Tab(e) => {
            code.put(Item::TabText)?;
            emit_expr(alloc, code, tables, e)
        }
    }
}

// PRINT USING

/// Emits PRINT USING. All values are evaluated after the format, and then written together.
pub fn emit_print_using<K: Sink, L: Lookups>(
    alloc: Global,
    code: &mut K,
    tables: &L,
    channel: &Option<Expr>,
    format: &Expr,
    values: &[UsingItem],
    last: &Option<Expr>,
) -> Result<(), NoMemory>
    ensures { OnOk result (code.new
        ≡ with_pieces K.with (L.program tables.now)
        (Ex (or_terminal (option_map tree_of channel.now)) ∷ It item.TestOutput
        ∷ Ex (tree_of format.now) ∷ used_pieces (used_values (map using_item_of values.now)
        (option_map tree_of last.now)) (is_some (option_map tree_of last.now))) code.old) }
{
    code.put(Item::WriteUsing {
        count: used_count(values, last)?,
        ends_line: last.is_some(),
    })?;
    emit_values(alloc, code, tables, values, last)?;
    emit_expr(alloc, code, tables, format)?;
    code.put(Item::TestOutput)?;
    emit_channel(alloc, code, tables, channel)
}

/// Returns the number of values.
fn used_count(values: &[UsingItem], last: &Option<Expr>) -> Result<u32, NoMemory>
    ensures { IfOk result (λ n. n
        ≡ count (in_order (used_values (map using_item_of values.now)
        (option_map tree_of last.now)))) }
{
    match last {
        None => counted(values.len()),
        Some(_) => next(counted(values.len())?),
    }
}

fn emit_values<K: Sink, L: Lookups>(
    alloc: Global,
    code: &mut K,
    tables: &L,
    values: &[UsingItem],
    last: &Option<Expr>,
) -> Result<(), NoMemory>
    ensures { OnOk result (code.new
        ≡ with_trees K.with (L.program tables.now)
        (in_order (used_values (map using_item_of values.now) (option_map tree_of last.now)))
        code.old) }
{
    emit_last(alloc, code, tables, last)?;
    for place in (0..values.len()).rev() {
        emit_expr(alloc, code, tables, &values[place].value)?;
    }
    Ok(())
}

fn emit_last<K: Sink, L: Lookups>(
    alloc: Global,
    code: &mut K,
    tables: &L,
    last: &Option<Expr>,
) -> Result<(), NoMemory>
    ensures { OnOk result (code.new
        ≡ with_trees K.with (L.program tables.now)
        (in_order (used_values [] (option_map tree_of last.now))) code.old) }
{
    match last {
        None => Ok(()),
        Some(last) => emit_expr(alloc, code, tables, last),
    }
}

/// Emits the channel, or 0, the terminal, if none is given.
fn emit_channel<K: Sink, L: Lookups>(
    alloc: Global,
    code: &mut K,
    tables: &L,
    channel: &Option<Expr>,
) -> Result<(), NoMemory>
    ensures { OnOk result (code.new
        ≡ with_expression K.with (L.program tables.now)
        (or_terminal (option_map tree_of channel.now)) code.old) }
{
    match channel {
        None => code.put(Item::Number(0)),
        Some(channel) => emit_expr(alloc, code, tables, channel),
    }
}

// INPUT #

/// Emits INPUT #: a line, and its items.
pub fn emit_input_on<K: Sink, L: Lookups>(
    alloc: Global,
    code: &mut K,
    tables: &L,
    channel: &Expr,
    targets: &[Target],
) -> Result<(), NoMemory>
    ensures { OnOk result (code.new
        ≡ with_pieces K.with (L.program tables.now)
        (Ex (tree_of channel.now) ∷ It item.LineOn ∷ It (item.Split (length targets.now))
        ∷ input_pieces (map target_of targets.now)) code.old) }
{
    emit_targets(alloc, code, tables, targets)?;
    code.put(Item::Split(counted(targets.len())?))?;
    code.put(Item::LineOn)?;
    emit_expr(alloc, code, tables, channel)
}

/// Emits INPUT LINE #: a line, and CR and LF after it.
pub fn emit_line_on<K: Sink, L: Lookups>(
    alloc: Global,
    code: &mut K,
    tables: &L,
    channel: &Expr,
    variable: Name,
) -> Result<(), NoMemory>
    ensures { OnOk result (code.new
        ≡ with_pieces K.with (L.program tables.now)
        (Ex (tree_of channel.now) ∷ It item.LineOn ∷ It (item.Quoted line_end)
        ∷ It (item.Operate operator.Plus) ∷ It (item.Store variable)
        ∷ It item.Discard ∷ []) code.old) }
{
    code.put(Item::Discard)?;
    code.put(Item::Store(variable))?;
    code.put(Item::Operate(Operator::Plus))?;
    code.put(Item::Quoted(line_end(alloc)?))?;
    code.put(Item::LineOn)?;
    emit_expr(alloc, code, tables, channel)
}
