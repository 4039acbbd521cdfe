//! The walk: each form of statement has its arm here, and nowhere else.

ghost use Rattle.std.specs.Prelude.{◌≡◌, [], ◌∷◌, ◌++◌, map, option_map, true, OnOk};
ghost use Rattle.basic_tree.specs.StatementViews.{statement_of, clause_of};
ghost use Rattle.basic_tree.specs.Trees.{Modified, End};
ghost use Rattle.basic_tree.specs.TreeViews.{tree_of, target_of, printed_of, item_of};
ghost use Rattle.basic_tree.specs.TreeViews.{print_channel_of, chain_line_of, close_channel_of};
ghost use Rattle.basic_tree.specs.TreeViews.{field_part_of, modifier_of, using_item_of, matrix_of};
ghost use Rattle.program_model.specs.Parts.{given, printed_expression, matrix_expressions};
ghost use Rattle.program_model.specs.Program.{loops_outside};
ghost use Rattle.statement_walk.specs.Walk.{own_expressions, parts_alone, modifier_parts, parts_in};
ghost use Rattle.statement_walk.specs.Walk.{parts_in_clause, visited, visited_trees};

use crate::parts::{Expression, Part, Simple, Visitor};
use basic_tree::{
    ChainLine, Clause, CloseChannel, Expr, FieldPart, MatrixValue, Modifier, PrintChannel,
    PrintItem, Printed, Statement, Target, UsingItem,
};

/// Shows the parts of a statement and of those inside it.
#[cycle(statements)]
#[tactic(auto, using(crate::proofs::Showing::showing))]
pub fn visit_parts<V: Visitor>(visitor: &mut V, statement: &Statement) -> Result<(), V::Stop>
    ensures { OnOk result (visitor.new
        ≡ visited V.after visitor.old (parts_in (statement_of statement.now))) }
{
    match statement {
        Statement::IfThen {
            condition,
            clause,
            otherwise,
        } => {
            visit_tree(visitor, condition)?;
            visit_clause(visitor, clause)?;
            match otherwise {
                None => Ok(()),
                Some(otherwise) => visit_clause(visitor, otherwise),
            }
        }
        Statement::IfGoto {
            condition,
            line,
            otherwise,
        } => {
            visit_tree(visitor, condition)?;
            visitor.visit(Part::Simple(Simple::Line(*line)))?;
            match otherwise {
                None => Ok(()),
                Some(otherwise) => visit_clause(visitor, otherwise),
            }
        }
        Statement::Modified {
            statement,
            modifier,
        } => {
            visit_parts(visitor, statement)?;
            visit_modifier(visitor, modifier)
        }
        simple => visit_simple(visitor, simple),
    }
}

/// Shows the parts of a clause.
#[cycle(statements)]
pub fn visit_clause<V: Visitor>(visitor: &mut V, clause: &Clause) -> Result<(), V::Stop>
    ensures { OnOk result (visitor.new
        ≡ visited V.after visitor.old (parts_in_clause (clause_of clause.now))) }
{
    match clause {
        Clause::Line(line) => visitor.visit(Part::Simple(Simple::Line(*line))),
        Clause::Statement(statement) => visit_parts(visitor, statement),
    }
}

#[tactic(auto, using(crate::proofs::Showing::showing))]
fn visit_modifier<V: Visitor>(visitor: &mut V, modifier: &Modifier) -> Result<(), V::Stop>
    ensures { OnOk result (visitor.new
        ≡ visited V.after visitor.old (modifier_parts (modifier_of modifier.now))) }
{
    match modifier {
        Modifier::If(e) => visit_tree(visitor, e),
        Modifier::Unless(e) => visit_tree(visitor, e),
        Modifier::While(e) => visit_tree(visitor, e),
        Modifier::Until(e) => visit_tree(visitor, e),
        Modifier::For { from, to, step, .. } => {
            visitor.visit(Part::Loop)?;
            visit_range(visitor, from, to, step)
        }
    }
}

/// Returns the number of FORs that a modifier is, 0 or 1.
pub fn own_loops(modifier: &Modifier) -> u32
    ensures { result ≡ loops_outside (Modified End (modifier_of modifier.now)) true }
{
    match modifier {
        Modifier::For { .. } => 1,
        Modifier::If(_) | Modifier::Unless(_) => 0,
        Modifier::While(_) | Modifier::Until(_) => 0,
    }
}

/// Shows a statement without others inside, and its expressions.
#[tactic(auto, using(crate::proofs::Showing::showing))]
fn visit_simple<V: Visitor>(visitor: &mut V, statement: &Statement) -> Result<(), V::Stop>
    ensures { OnOk result (visitor.new
        ≡ visited V.after visitor.old (parts_alone (statement_of statement.now))) }
{
    visitor.visit(Part::Simple(Simple::Statement(statement)))?;
    visit_expressions(visitor, statement)
}

/// Shows the expressions of a statement without others inside.
// Each arm is one call, and forms that do the same share one: each arm is one more case of the
// proof.
#[tactic(auto, using(crate::proofs::Showing::showing))]
fn visit_expressions<V: Visitor>(visitor: &mut V, statement: &Statement) -> Result<(), V::Stop>
    ensures { OnOk result (visitor.new
        ≡ visited_trees V.after visitor.old (own_expressions (statement_of statement.now))) }
{
    match statement {
        Statement::For { from, to, step, .. } => visit_range(visitor, from, to, step),
        Statement::Def { value: e, .. } | Statement::InputLine { channel: e, .. } => {
            visit_given(visitor, e)
        }
        Statement::Let { targets, value, .. } => {
            visit_assignment(visitor, targets.as_slice(), value)
        }
        Statement::Print {
            channel,
            items,
            last,
        } => visit_print(visitor, channel, items.as_slice(), last),
        Statement::PrintUsing {
            channel,
            format,
            values,
            last,
        } => visit_print_using(visitor, channel, format, values.as_slice(), last),
        Statement::Input {
            channel,
            targets,
            ..
        } => visit_input(visitor, channel, targets.as_slice()),
        Statement::Read(targets) => visit_targets(visitor, targets.as_slice()),
        Statement::Chain { program, line } => visit_chain(visitor, program, line),
        Statement::Open {
            file,
            channel,
            record_size,
            cluster_size,
            mode,
            ..
        } => visit_open(visitor, file, channel, record_size, cluster_size, mode),
        Statement::Close(channels) => visit_channels(visitor, channels.as_slice()),
        Statement::Get { channel, record } | Statement::Put { channel, record } => {
            visit_pair(visitor, channel, record)
        }
        Statement::Field { channel, parts } => visit_field(visitor, channel, parts.as_slice()),
        Statement::Rename { old, new } => visit_both(visitor, old, new),
        Statement::MatLet { value, .. } => visit_matrix(visitor, value),
        Statement::Result { value: e, .. }
        | Statement::OnGoto { selector: e, .. }
        | Statement::OnGosub { selector: e, .. }
        | Statement::Sleep(e)
        | Statement::Unlock(e)
        | Statement::Lset { value: e, .. }
        | Statement::Rset { value: e, .. }
        | Statement::Kill(e) => visit_tree(visitor, e),
        Statement::MatRead(_)
        | Statement::MatPrint { .. }
        | Statement::IfThen { .. }
        | Statement::IfGoto { .. }
        | Statement::Modified { .. }
        | Statement::Next(_)
        | Statement::FnEnd
        | Statement::Data(_)
        | Statement::Dim(_)
        | Statement::DimFile { .. }
        | Statement::Restore
        | Statement::Goto { .. }
        | Statement::Gosub { .. }
        | Statement::Return
        | Statement::OnErrorGoto(_)
        | Statement::Resume(_)
        | Statement::Stop
        | Statement::End => Ok(()),
    }
}

// Expressions of statements

/// Shows the expressions of a PRINT.
#[tactic(auto, using(crate::proofs::Showing::showing))]
fn visit_print<V: Visitor>(
    visitor: &mut V,
    channel: &Option<PrintChannel>,
    items: &[PrintItem],
    last: &Option<Printed>,
) -> Result<(), V::Stop>
    ensures { OnOk result (visitor.new
        ≡ visited_trees V.after visitor.old
        (map (λ c. c.number) (given (option_map print_channel_of channel.now))
        ++ map (λ item. printed_expression item.printed) (map item_of items.now)
        ++ map printed_expression (given (option_map printed_of last.now)))) }
{
    visit_print_channel(visitor, channel)?;
    visit_items(visitor, items)?;
    visit_last(visitor, last)
}

/// Shows the expressions of a PRINT USING.
#[tactic(auto, using(crate::proofs::Showing::showing))]
fn visit_print_using<V: Visitor>(
    visitor: &mut V,
    channel: &Option<Expr>,
    format: &Expr,
    values: &[UsingItem],
    last: &Option<Expr>,
) -> Result<(), V::Stop>
    ensures { OnOk result (visitor.new
        ≡ visited_trees V.after visitor.old (given (option_map tree_of channel.now)
        ++ tree_of format.now ∷ map (λ item. item.value) (map using_item_of values.now)
        ++ given (option_map tree_of last.now))) }
{
    visit_given(visitor, channel)?;
    visit_tree(visitor, format)?;
    visit_values(visitor, values)?;
    visit_given(visitor, last)
}

/// Shows the expressions of an INPUT.
#[tactic(auto, using(crate::proofs::Showing::showing))]
fn visit_input<V: Visitor>(
    visitor: &mut V,
    channel: &Option<Expr>,
    targets: &[Target],
) -> Result<(), V::Stop>
    ensures { OnOk result (visitor.new
        ≡ visited_trees V.after visitor.old (given (option_map tree_of channel.now)
        ++ map target_of targets.now)) }
{
    visit_given(visitor, channel)?;
    visit_targets(visitor, targets)
}

/// Shows the expressions of a CHAIN.
fn visit_chain<V: Visitor>(
    visitor: &mut V,
    program: &Expr,
    line: &Option<ChainLine>,
) -> Result<(), V::Stop>
    ensures { OnOk result (visitor.new
        ≡ visited_trees V.after visitor.old (tree_of program.now ∷ map (λ l. l.number)
        (given (option_map chain_line_of line.now)))) }
{
    visit_tree(visitor, program)?;
    match line {
        None => Ok(()),
        Some(line) => visit_tree(visitor, &line.number),
    }
}

/// Shows the expressions of an OPEN.
#[tactic(auto, using(crate::proofs::Showing::showing))]
fn visit_open<V: Visitor>(
    visitor: &mut V,
    file: &Expr,
    channel: &Expr,
    record_size: &Option<Expr>,
    cluster_size: &Option<Expr>,
    mode: &Option<Expr>,
) -> Result<(), V::Stop>
    ensures { OnOk result (visitor.new
        ≡ visited_trees V.after visitor.old (tree_of file.now ∷ tree_of channel.now
        ∷ given (option_map tree_of record_size.now) ++ given (option_map tree_of cluster_size.now)
        ++ given (option_map tree_of mode.now))) }
{
    visit_both(visitor, file, channel)?;
    visit_given(visitor, record_size)?;
    visit_given(visitor, cluster_size)?;
    visit_given(visitor, mode)
}

/// Shows the expressions of a FIELD.
fn visit_field<V: Visitor>(
    visitor: &mut V,
    channel: &Expr,
    fields: &[FieldPart],
) -> Result<(), V::Stop>
    ensures { OnOk result (visitor.new
        ≡ visited_trees V.after visitor.old (tree_of channel.now ∷ map (λ part. part.width)
        (map field_part_of fields.now))) }
{
    visit_tree(visitor, channel)?;
    visit_widths(visitor, fields)
}

/// Shows two expressions.
fn visit_both<V: Visitor>(visitor: &mut V, first: &Expr, second: &Expr) -> Result<(), V::Stop>
    ensures { OnOk result (visitor.new
        ≡ visited_trees V.after visitor.old (tree_of first.now ∷ tree_of second.now ∷ [])) }
{
    visit_tree(visitor, first)?;
    visit_tree(visitor, second)
}

fn visit_tree<V: Visitor>(visitor: &mut V, e: &Expr) -> Result<(), V::Stop>
    ensures { OnOk result (visitor.new ≡ visited_trees V.after visitor.old (tree_of e.now ∷ [])) }
{
    visitor.visit(Part::Expression(Expression::Tree(e)))
}

fn visit_given<V: Visitor>(visitor: &mut V, e: &Option<Expr>) -> Result<(), V::Stop>
    ensures { OnOk result (visitor.new
        ≡ visited_trees V.after visitor.old (given (option_map tree_of e.now))) }
{
    match e {
        None => Ok(()),
        Some(e) => visit_tree(visitor, e),
    }
}

fn visit_pair<V: Visitor>(
    visitor: &mut V,
    first: &Expr,
    second: &Option<Expr>,
) -> Result<(), V::Stop>
    ensures { OnOk result (visitor.new
        ≡ visited_trees V.after visitor.old
        (tree_of first.now ∷ given (option_map tree_of second.now))) }
{
    visit_tree(visitor, first)?;
    visit_given(visitor, second)
}

fn visit_range<V: Visitor>(
    visitor: &mut V,
    from: &Expr,
    to: &Expr,
    step: &Option<Expr>,
) -> Result<(), V::Stop>
    ensures { OnOk result (visitor.new
        ≡ visited_trees V.after visitor.old (tree_of from.now ∷ tree_of to.now ∷ given
        (option_map tree_of step.now))) }
{
    visit_tree(visitor, from)?;
    visit_pair(visitor, to, step)
}

#[tactic(auto, using(crate::proofs::Showing::showing))]
fn visit_assignment<V: Visitor>(
    visitor: &mut V,
    targets: &[Target],
    value: &Expr,
) -> Result<(), V::Stop>
    ensures { OnOk result (visitor.new
        ≡ visited_trees V.after visitor.old (map target_of targets.now ++ tree_of value.now ∷ [])) }
{
    visit_targets(visitor, targets)?;
    visit_tree(visitor, value)
}

fn visit_targets<V: Visitor>(visitor: &mut V, targets: &[Target]) -> Result<(), V::Stop>
    ensures { OnOk result (visitor.new
        ≡ visited_trees V.after visitor.old (map target_of targets.now)) }
{
    for target in targets {
        visitor.visit(Part::Expression(Expression::Target(target)))?;
    }
    Ok(())
}

fn visit_printed<V: Visitor>(visitor: &mut V, printed: &Printed) -> Result<(), V::Stop>
    ensures { OnOk result (visitor.new
        ≡ visited_trees V.after visitor.old (printed_expression (printed_of printed.now) ∷ [])) }
{
    match printed {
        Printed::Value(e) => visit_tree(visitor, e),
        Printed::Tab(e) => visit_tree(visitor, e),
    }
}

fn visit_last<V: Visitor>(visitor: &mut V, last: &Option<Printed>) -> Result<(), V::Stop>
    ensures { OnOk result (visitor.new
        ≡ visited_trees V.after visitor.old (map printed_expression (given
        (option_map printed_of last.now)))) }
{
    match last {
        None => Ok(()),
        Some(last) => visit_printed(visitor, last),
    }
}

fn visit_print_channel<V: Visitor>(
    visitor: &mut V,
    channel: &Option<PrintChannel>,
) -> Result<(), V::Stop>
    ensures { OnOk result (visitor.new
        ≡ visited_trees V.after visitor.old (map (λ c. c.number) (given
        (option_map print_channel_of channel.now)))) }
{
    match channel {
        None => Ok(()),
        Some(channel) => visit_tree(visitor, &channel.number),
    }
}

fn visit_items<V: Visitor>(visitor: &mut V, items: &[PrintItem]) -> Result<(), V::Stop>
    ensures { OnOk result (visitor.new
        ≡ visited_trees V.after visitor.old (map (λ item. printed_expression item.printed)
        (map item_of items.now))) }
{
    for item in items {
        visit_printed(visitor, &item.printed)?;
    }
    Ok(())
}

fn visit_channels<V: Visitor>(visitor: &mut V, channels: &[CloseChannel]) -> Result<(), V::Stop>
    ensures { OnOk result (visitor.new
        ≡ visited_trees V.after visitor.old
        (map (λ c. c.number) (map close_channel_of channels.now))) }
{
    for channel in channels {
        visit_tree(visitor, &channel.number)?;
    }
    Ok(())
}

fn visit_widths<V: Visitor>(visitor: &mut V, fields: &[FieldPart]) -> Result<(), V::Stop>
    ensures { OnOk result (visitor.new
        ≡ visited_trees V.after visitor.old
        (map (λ part. part.width) (map field_part_of fields.now))) }
{
    for field in fields {
        visit_tree(visitor, &field.width)?;
    }
    Ok(())
}

fn visit_values<V: Visitor>(visitor: &mut V, values: &[UsingItem]) -> Result<(), V::Stop>
    ensures { OnOk result (visitor.new
        ≡ visited_trees V.after visitor.old
        (map (λ item. item.value) (map using_item_of values.now))) }
{
    for item in values {
        visit_tree(visitor, &item.value)?;
    }
    Ok(())
}

fn visit_matrix<V: Visitor>(visitor: &mut V, value: &MatrixValue) -> Result<(), V::Stop>
    ensures { OnOk result (visitor.new
        ≡ visited_trees V.after visitor.old (matrix_expressions (matrix_of value.now))) }
{
    match value {
        MatrixValue::Scaled { factor, .. } => visit_tree(visitor, factor),
        MatrixValue::Zero | MatrixValue::One | MatrixValue::Identity => Ok(()),
        MatrixValue::Copy(_) | MatrixValue::Transposed(_) => Ok(()),
        MatrixValue::Sum(_, _) | MatrixValue::Difference(_, _) => Ok(()),
        MatrixValue::Product(_, _) => Ok(()),
    }
}
