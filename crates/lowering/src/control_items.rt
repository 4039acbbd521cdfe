//! The code of statements that are several instructions, or one after a value: FOR, LET, the result
//! of a function, INPUT LINE of the terminal, ON and END.

ghost use Rattle.std.specs.Prelude.{◌≡◌, [], ◌∷◌, option_map, map, OnOk};
ghost use Rattle.basic_tree.specs.TreeViews.{tree_of, target_of};
ghost use Rattle.basic_tree.specs.Trees.{For};
ghost use Rattle.polish_code.specs.declared.items.Item.TheVariants as item;
ghost use Rattle.program_model.specs.declared.file_acts.FileAct.TheVariants as file;
ghost use Rattle.polish_code.specs.Code.{Ex, It, places_of, targets_pieces};
ghost use Rattle.lowering.specs.Emission.{with_pieces, with_simple};

use crate::expressions::emit_expr;
use crate::simple::{emit_step, emit_stores, line_places};
use crate::sink::Sink;
use basic_tree::{Expr, Name, Target};
use basic_values::NoMemory;
use code_places::Lookups;
use polish_code::{FileAct, Item};
use std::alloc::Global;

/// Emits a FOR, with its limits at the i-th place. If the loop has no turn, it goes to the
/// statement after its NEXT.
pub fn emit_for<K: Sink, L: Lookups>(
    alloc: Global,
    code: &mut K,
    tables: &L,
    m: usize,
    i: u32,
    variable: Name,
    from: &Expr,
    to: &Expr,
    step: &Option<Expr>,
) -> Result<(), NoMemory>
    ensures { OnOk result (code.new
        ≡ with_simple K.with (L.program tables.now) m i
        (For variable (tree_of from.now) (tree_of to.now) (option_map tree_of step.now)) code.old) }
{
    code.put(Item::Open {
        variable,
        place: i,
        to: tables.past_next(m),
    })?;
    emit_step(alloc, code, tables, step)?;
    emit_expr(alloc, code, tables, to)?;
    emit_expr(alloc, code, tables, from)
}

/// Emits a value, and its stores to the targets.
pub fn emit_let<K: Sink, L: Lookups>(
    alloc: Global,
    code: &mut K,
    tables: &L,
    targets: &[Target],
    value: &Expr,
) -> Result<(), NoMemory>
    ensures { OnOk result (code.new
        ≡ with_pieces K.with (L.program tables.now)
        (Ex (tree_of value.now) ∷ targets_pieces (map target_of targets.now) (It item.Discard ∷ []))
        code.old) }
{
    emit_stores(alloc, code, tables, targets)?;
    emit_expr(alloc, code, tables, value)
}

/// Emits the result of a function of several lines.
pub fn emit_result<K: Sink, L: Lookups>(
    alloc: Global,
    code: &mut K,
    tables: &L,
    value: &Expr,
) -> Result<(), NoMemory>
    ensures { OnOk result (code.new
        ≡ with_pieces K.with (L.program tables.now) (Ex (tree_of value.now) ∷ It item.Answer ∷ [])
        code.old) }
{
    code.put(Item::Answer)?;
    emit_expr(alloc, code, tables, value)
}

/// Emits a key line that is stored whole.
pub fn emit_line_asked<K: Sink>(code: &mut K, variable: Name) -> Result<(), NoMemory>
    ensures { OnOk result (code.new
        ≡ K.with item.AskLine (K.with (item.Store variable) (K.with item.Discard code.old))) }
{
    code.put(Item::Discard)?;
    code.put(Item::Store(variable))?;
    code.put(Item::AskLine)
}

/// Emits ON .. GOTO.
pub fn emit_on_goto<K: Sink, L: Lookups>(
    alloc: Global,
    code: &mut K,
    tables: &L,
    selector: &Expr,
    lines: &[u16],
) -> Result<(), NoMemory>
    ensures { OnOk result (code.new
        ≡ with_pieces K.with (L.program tables.now)
        (Ex (tree_of selector.now) ∷ It (item.OnGoto (map (places_of (L.program tables.now)).line
        lines.now)) ∷ []) code.old) }
{
    code.put(Item::OnGoto(line_places(alloc, tables, lines)?))?;
    emit_expr(alloc, code, tables, selector)
}

/// Emits ON .. GOSUB of the m-th statement.
pub fn emit_on_gosub<K: Sink, L: Lookups>(
    alloc: Global,
    code: &mut K,
    tables: &L,
    m: usize,
    selector: &Expr,
    lines: &[u16],
) -> Result<(), NoMemory>
    ensures { OnOk result (code.new
        ≡ with_pieces K.with (L.program tables.now)
        (Ex (tree_of selector.now) ∷ It (item.OnGosub ((places_of (L.program tables.now)).home m)
        (map (places_of (L.program tables.now)).line lines.now)) ∷ []) code.old) }
{
    let places = line_places(alloc, tables, lines)?;
    code.put(Item::OnGosub {
        home: tables.home(m),
        places,
    })?;
    emit_expr(alloc, code, tables, selector)
}

/// Emits END, which closes the channels first.
pub fn emit_end<K: Sink>(code: &mut K) -> Result<(), NoMemory>
    ensures { OnOk result (code.new
        ≡ K.with (item.Ask file.ShutAll) (K.with item.End code.old)) }
{
    code.put(Item::End)?;
    code.put(Item::Ask(FileAct::ShutAll))
}
