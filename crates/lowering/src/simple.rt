//! The code of statements without others inside. Parts are emitted from the last to the first.

ghost use Rattle.std.specs.Prelude.{◌≡◌, [], ◌∷◌, map, length, option_map, IfOk, OnOk};
ghost use Rattle.basic_tree.specs.StatementViews.{statement_of};
ghost use Rattle.basic_tree.specs.TreeViews.{tree_of, target_of, printed_of, item_of, prompt_of};
ghost use Rattle.basic_tree.specs.TreeViews.{chain_line_of};
ghost use Rattle.program_model.specs.Chaining.{line_operand};
ghost use Rattle.program_model.specs.Input.{prompt_text};
ghost use Rattle.program_model.specs.Targets.{wants_text};
ghost use Rattle.program_model.specs.Traps.{line_named};
ghost use Rattle.polish_code.specs.declared.items.Item.TheVariants as item;
ghost use Rattle.polish_code.specs.Code.{Ex, It, places_of, def_pieces, target_pieces};
ghost use Rattle.polish_code.specs.Code.{targets_pieces, judged_pieces, input_pieces, read_pieces};
ghost use Rattle.polish_code.specs.Code.{printed_pieces, separator_pieces, print_pieces};
ghost use Rattle.polish_code.specs.Code.{end_pieces, step_piece};
ghost use Rattle.lowering.specs.Emission.{with_expression, with_pieces, with_simple};

use crate::channel_items::{emit_input_on, emit_line_on, emit_print_on, emit_print_using};
use crate::control_items::{
    emit_end, emit_for, emit_let, emit_line_asked, emit_on_gosub, emit_on_goto, emit_result,
};
use crate::expressions::emit_expr;
use crate::field_items::{emit_field, emit_justify};
use crate::file_items::{emit_close, emit_open, emit_with_block, emit_with_one, emit_with_two};
use crate::matrix_items::{emit_mat_let, emit_mat_read};
use crate::sink::{Jump, Over, Sink};
use basic_tree::{
    ChainLine, Expr, PrintItem, Printed, Prompt, Separator, Series, Statement, Target,
};
use basic_values::{NoMemory, Text};
use code_places::{Lookups, counted, store_item};
use monitor_calls::copy_of;
use polish_code::{FileAct, Item, MatrixAct};
use program_soundness::named_line;
use record_fields::Side;
use std::alloc::Global;

/// Puts the code after the start of the m-th statement before the code so far. The statement has i
/// FORs before it.
pub fn emit_simple<K: Sink, L: Lookups>(
    alloc: Global,
    code: &mut K,
    tables: &L,
    m: usize,
    i: u32,
    statement: &Statement,
) -> Result<(), NoMemory>
    ensures { OnOk result (code.new
        ≡ with_simple K.with (L.program tables.now) m i (statement_of statement.now) code.old) }
{
    match statement {
        Statement::For {
            variable,
            from,
            to,
            step,
        } => emit_for(alloc, code, tables, m, i, *variable, from, to, step),
        Statement::Next(variable) => code.put(Item::Step {
            variable: *variable,
            place: tables.loop_place(m),
            to: tables.past_for(m),
        }),
        Statement::FnEnd => code.put(Item::Leave),
        Statement::Def { value, .. } => emit_def(alloc, code, tables, m, value),
        Statement::Let { targets, value, .. } => {
            emit_let(alloc, code, tables, targets.as_slice(), value)
        }
        Statement::Result { value, .. } => emit_result(alloc, code, tables, value),
        Statement::Print {
            channel,
            items,
            last,
        } => match channel {
            None => emit_print(alloc, code, tables, items.as_slice(), last),
            Some(channel) => {
                emit_print_on(alloc, code, tables, &channel.number, items.as_slice(), last)
            }
        },
        Statement::PrintUsing {
            channel,
            format,
            values,
            last,
        } => emit_print_using(
            alloc,
            code,
            tables,
            channel,
            format,
            values.as_slice(),
            last,
        ),
        Statement::Input {
            channel,
            prompt,
            targets,
        } => match channel {
            None => emit_input(alloc, code, tables, prompt, targets.as_slice()),
            Some(channel) => emit_input_on(alloc, code, tables, channel, targets.as_slice()),
        },
        Statement::InputLine { channel, variable } => match channel {
            None => emit_line_asked(code, *variable),
            Some(channel) => emit_line_on(alloc, code, tables, channel, *variable),
        },
        Statement::Read(targets) => emit_read(alloc, code, tables, targets.as_slice()),
        Statement::Restore => code.put(Item::Restore),
        Statement::Goto { line, .. } => code.put(Item::Jump(tables.line_place(*line))),
        Statement::Gosub { line, .. } => code.put(Item::Gosub {
            home: tables.home(m),
            to: tables.line_place(*line),
        }),
        Statement::Return => code.put(Item::Return),
        Statement::OnGoto { selector, lines } => {
            emit_on_goto(alloc, code, tables, selector, lines.as_slice())
        }
        Statement::OnGosub { selector, lines } => {
            emit_on_gosub(alloc, code, tables, m, selector, lines.as_slice())
        }
        Statement::OnErrorGoto(line) => code.put(Item::OnError(named_line(*line))),
        Statement::Resume(line) => emit_resume(code, tables, *line),
        Statement::Stop => code.put(Item::Stop(tables.home(m))),
        Statement::End => emit_end(code),
        Statement::Chain { program, line } => emit_chain(alloc, code, tables, program, line),
        Statement::Sleep(seconds) => emit_with_one(alloc, code, tables, FileAct::Sleep, seconds),
        Statement::Open {
            file,
            purpose,
            channel,
            record_size,
            cluster_size,
            mode,
            ..
        } => emit_open(
            alloc,
            code,
            tables,
            *purpose,
            file,
            channel,
            record_size,
            cluster_size,
            mode,
        ),
        Statement::Close(channels) => emit_close(alloc, code, tables, channels.as_slice()),
        Statement::Get { channel, record } => {
            emit_with_block(alloc, code, tables, FileAct::Get, channel, record)
        }
        Statement::Put { channel, record } => {
            emit_with_block(alloc, code, tables, FileAct::Put, channel, record)
        }
        Statement::Unlock(channel) => {
            emit_with_one(alloc, code, tables, FileAct::Unlock, channel)
        }
        Statement::Field { channel, parts } => {
            emit_field(alloc, code, tables, channel, parts.as_slice())
        }
        Statement::Lset { variable, value } => {
            emit_justify(alloc, code, tables, Side::Left, *variable, value)
        }
        Statement::Rset { variable, value } => {
            emit_justify(alloc, code, tables, Side::Right, *variable, value)
        }
        Statement::Kill(file) => emit_with_one(alloc, code, tables, FileAct::Kill, file),
        Statement::Rename { old, new } => {
            emit_with_two(alloc, code, tables, FileAct::Rename, old, new)
        }
        Statement::IfThen { .. } => Ok(()),
        Statement::IfGoto { .. } => Ok(()),
        Statement::Modified { .. } => Ok(()),
        Statement::Data(_) => Ok(()),
        Statement::Dim(_) => Ok(()),
        Statement::DimFile { .. } => Ok(()),
        Statement::MatRead(matrices) => emit_mat_read(alloc, code, tables, matrices.as_slice()),
        Statement::MatPrint { matrix, separator } => {
            code.put(Item::Matrix(MatrixAct::Print {
                matrix: *matrix,
                separator: *separator,
            }))
        }
        Statement::MatLet { target, value } => emit_mat_let(alloc, code, tables, *target, value),
    }
}

/// Emits the step of a FOR, or 1 if none is given.
pub fn emit_step<K: Sink, L: Lookups>(
    alloc: Global,
    code: &mut K,
    tables: &L,
    step: &Option<Expr>,
) -> Result<(), NoMemory>
    ensures { OnOk result (code.new
        ≡ with_pieces K.with (L.program tables.now)
        (step_piece (option_map tree_of step.now) ∷ []) code.old) }
{
    match step {
        None => code.put(Item::Number(1)),
        Some(step) => emit_expr(alloc, code, tables, step),
    }
}

fn emit_def<K: Sink, L: Lookups>(
    alloc: Global,
    code: &mut K,
    tables: &L,
    m: usize,
    value: &Option<Expr>,
) -> Result<(), NoMemory>
    ensures { OnOk result (code.new
        ≡ with_pieces K.with (L.program tables.now)
        (def_pieces (L.program tables.now) (places_of (L.program tables.now)) m
        (option_map tree_of value.now)) code.old) }
{
    match value {
        None => code.put(Item::Jump(tables.past_body(m))),
        Some(value) => {
            code.put(Item::Leave)?;
            code.put(Item::Answer)?;
            emit_expr(alloc, code, tables, value)?;
            code.put(Item::Arrive(tables.home(m)))?;
            code.put_jump(alloc, Jump::Skip, Over::Value(value))
        }
    }
}

// Targets

/// Emits the store to a target.
fn emit_target<K: Sink, L: Lookups>(
    alloc: Global,
    code: &mut K,
    tables: &L,
    target: &Target,
) -> Result<(), NoMemory>
    ensures { OnOk result (code.new
        ≡ with_pieces K.with (L.program tables.now)
        (target_pieces (target_of target.now) []) code.old) }
{
    match target {
        Target::Variable(name) => code.put(Item::Store(*name)),
        Target::Element {
            name,
            first,
            second,
        } => match second {
            None => {
                code.put(store_item(tables, *name, 1))?;
                emit_expr(alloc, code, tables, first)
            }
            Some(second) => {
                code.put(store_item(tables, *name, 2))?;
                emit_expr(alloc, code, tables, second)?;
                emit_expr(alloc, code, tables, first)
            }
        },
    }
}

/// Emits the stores of one value.
pub fn emit_stores<K: Sink, L: Lookups>(
    alloc: Global,
    code: &mut K,
    tables: &L,
    targets: &[Target],
) -> Result<(), NoMemory>
    ensures { OnOk result (code.new
        ≡ with_pieces K.with (L.program tables.now)
        (targets_pieces (map target_of targets.now) (It item.Discard ∷ [])) code.old) }
{
    code.put(Item::Discard)?;
    for place in (0..targets.len()).rev() {
        emit_target(alloc, code, tables, &targets[place])?;
    }
    Ok(())
}

/// Emits an item that becomes a value and is stored.
fn emit_judged<K: Sink, L: Lookups>(
    alloc: Global,
    code: &mut K,
    tables: &L,
    target: &Target,
) -> Result<(), NoMemory>
    ensures { OnOk result (code.new
        ≡ with_pieces K.with (L.program tables.now)
        (judged_pieces (target_of target.now) []) code.old) }
{
    code.put(Item::Discard)?;
    emit_target(alloc, code, tables, target)?;
    code.put(Item::Judge(takes_text(target)))
}

fn takes_text(target: &Target) -> bool
    ensures { result ≡ wants_text (target_of target.now) }
{
    match target {
        Target::Variable(name) => name.text,
        Target::Element { name, .. } => name.text,
    }
}

fn emit_input<K: Sink, L: Lookups>(
    alloc: Global,
    code: &mut K,
    tables: &L,
    prompt: &Option<Prompt>,
    targets: &[Target],
) -> Result<(), NoMemory>
    ensures { OnOk result (code.new
        ≡ with_pieces K.with (L.program tables.now)
        (It (item.AskItems (prompt_text (option_map prompt_of prompt.now))
        (length targets.now)) ∷ input_pieces (map target_of targets.now)) code.old) }
{
    emit_targets(alloc, code, tables, targets)?;
    code.put(Item::AskItems {
        prompt: prompt_copy(alloc, prompt)?,
        count: counted(targets.len())?,
    })
}

/// Emits the stores of the items of a line.
pub fn emit_targets<K: Sink, L: Lookups>(
    alloc: Global,
    code: &mut K,
    tables: &L,
    targets: &[Target],
) -> Result<(), NoMemory>
    ensures { OnOk result (code.new
        ≡ with_pieces K.with (L.program tables.now) (input_pieces (map target_of targets.now))
        code.old) }
{
    for place in (0..targets.len()).rev() {
        emit_judged(alloc, code, tables, &targets[place])?;
    }
    Ok(())
}

fn prompt_copy(alloc: Global, prompt: &Option<Prompt>) -> Result<Text, NoMemory>
    ensures { IfOk result (λ text. text ≡ prompt_text (option_map prompt_of prompt.now)) }
{
    match prompt {
        None => Ok(Text::empty(alloc)),
        Some(prompt) => copy_of(alloc, &prompt.text),
    }
}

fn emit_read<K: Sink, L: Lookups>(
    alloc: Global,
    code: &mut K,
    tables: &L,
    targets: &[Target],
) -> Result<(), NoMemory>
    ensures { OnOk result (code.new
        ≡ with_pieces K.with (L.program tables.now)
        (read_pieces (map target_of targets.now)) code.old) }
{
    for place in (0..targets.len()).rev() {
        emit_judged(alloc, code, tables, &targets[place])?;
        code.put(Item::TakeItem)?;
    }
    Ok(())
}

// PRINT

fn emit_print<K: Sink, L: Lookups>(
    alloc: Global,
    code: &mut K,
    tables: &L,
    items: &[PrintItem],
    last: &Option<Printed>,
) -> Result<(), NoMemory>
    ensures { OnOk result (code.new
        ≡ with_pieces K.with (L.program tables.now)
        (print_pieces (map item_of items.now) (end_pieces (map item_of items.now)
        (option_map printed_of last.now))) code.old) }
{
    emit_print_end(alloc, code, tables, items, last)?;
    for place in (0..items.len()).rev() {
        emit_print_item(alloc, code, tables, &items[place])?;
    }
    Ok(())
}

fn emit_print_end<K: Sink, L: Lookups>(
    alloc: Global,
    code: &mut K,
    tables: &L,
    items: &[PrintItem],
    last: &Option<Printed>,
) -> Result<(), NoMemory>
    ensures { OnOk result (code.new
        ≡ with_pieces K.with (L.program tables.now)
        (end_pieces (map item_of items.now) (option_map printed_of last.now)) code.old) }
{
    match last {
        Some(last) => {
            code.put(Item::EndLine)?;
            emit_printed(alloc, code, tables, last)
        }
        None => match items {
            [] => code.put(Item::EndLine),
            [_, ..] => Ok(()),
        },
    }
}

fn emit_print_item<K: Sink, L: Lookups>(
    alloc: Global,
    code: &mut K,
    tables: &L,
    item: &PrintItem,
) -> Result<(), NoMemory>
    ensures { OnOk result (code.new
        ≡ with_pieces K.with (L.program tables.now)
        (printed_pieces (printed_of item.now.printed)
        (separator_pieces item.now.separator [])) code.old) }
{
    match item.separator {
        Separator::Comma => code.put(Item::Zone)?,
        Separator::Semicolon => {}
    }
    emit_printed(alloc, code, tables, &item.printed)
}

fn emit_printed<K: Sink, L: Lookups>(
    alloc: Global,
    code: &mut K,
    tables: &L,
    printed: &Printed,
) -> Result<(), NoMemory>
    ensures { OnOk result (code.new
        ≡ with_pieces K.with (L.program tables.now)
        (printed_pieces (printed_of printed.now) []) code.old) }
{
    match printed {
        Printed::Value(e) => {
            code.put(Item::PrintValue)?;
            emit_expr(alloc, code, tables, e)
        }
        Printed::Tab(e) => {
            code.put(Item::PrintTab)?;
            emit_expr(alloc, code, tables, e)
        }
    }
}

// Lines

pub fn line_places<L: Lookups>(
    alloc: Global,
    tables: &L,
    lines: &[u16],
) -> Result<Series<u32>, NoMemory>
    ensures { IfOk result (λ places. places
        ≡ map (places_of (L.program tables.now)).line lines.now) }
{
    let mut places = Vec::new(alloc);
    for line in lines {
        places.push(tables.line_place(*line))?;
    }
    Ok(Series::from_vec(places))
}

fn emit_resume<K: Sink, L: Lookups>(
    code: &mut K,
    tables: &L,
    line: Option<u16>,
) -> Result<(), NoMemory>
    ensures { OnOk result (code.new
        ≡ K.with (item.Resume (option_map (places_of (L.program tables.now)).line
        (line_named line))) code.old) }
{
    match named_line(line) {
        None => code.put(Item::Resume(None)),
        Some(line) => code.put(Item::Resume(Some(tables.line_place(line)))),
    }
}

// CHAIN

fn emit_chain<K: Sink, L: Lookups>(
    alloc: Global,
    code: &mut K,
    tables: &L,
    program: &Expr,
    line: &Option<ChainLine>,
) -> Result<(), NoMemory>
    ensures { OnOk result (code.new
        ≡ with_pieces K.with (L.program tables.now)
        (Ex (tree_of program.now) ∷ Ex (line_operand (option_map chain_line_of line.now))
        ∷ It item.Chain ∷ []) code.old) }
{
    code.put(Item::Chain)?;
    emit_line_operand(alloc, code, tables, line)?;
    emit_expr(alloc, code, tables, program)
}

/// Emits the line number, or 0 if it is left out.
fn emit_line_operand<K: Sink, L: Lookups>(
    alloc: Global,
    code: &mut K,
    tables: &L,
    line: &Option<ChainLine>,
) -> Result<(), NoMemory>
    ensures { OnOk result (code.new
        ≡ with_expression K.with (L.program tables.now)
        (line_operand (option_map chain_line_of line.now)) code.old) }
{
    match line {
        None => code.put(Item::Number(0)),
        Some(line) => emit_expr(alloc, code, tables, &line.number),
    }
}
