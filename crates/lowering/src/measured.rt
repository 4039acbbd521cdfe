//! The number of instructions of parts of statements, which are emitted into a counter.
//!
//! So `places_in` knows where each statement begins before there is code, and a sink that stores a
//! jump knows how far it leads.

ghost use Rattle.std.specs.Prelude.{◌≡◌, IfOk};
ghost use Rattle.basic_tree.specs.StatementViews.{statement_of, clause_of};
ghost use Rattle.basic_tree.specs.TreeViews.{tree_of};
ghost use Rattle.polish_code.specs.Code.{expr_size, body_size, clause_size};
ghost use Rattle.lowering.specs.Jumps.{items_over, jump_item};

use crate::counted::Counted;
use crate::expressions::emit_expr;
use crate::sink::{Jump, Over};
use crate::statements::{emit_body, emit_clause};
use basic_tree::{Clause, Expr, Statement};
use basic_values::NoMemory;
use code_places::{Nowhere, next, sum};
use polish_code::Item;
use std::alloc::Global;

/// Returns the number of instructions of a statement after its start.
pub fn body_size(alloc: Global, statement: &Statement) -> Result<u32, NoMemory>
    ensures { IfOk result (λ size. size ≡ body_size (statement_of statement.now)) }
{
    let mut counted = Counted::new();
    emit_body(alloc, &mut counted, &Nowhere, 0, 0, statement)?;
    Ok(counted.count())
}

fn clause_size(alloc: Global, clause: &Clause) -> Result<u32, NoMemory>
    ensures { IfOk result (λ size. size ≡ clause_size (clause_of clause.now)) }
{
    let mut counted = Counted::new();
    emit_clause(alloc, &mut counted, &Nowhere, 0, 0, clause)?;
    Ok(counted.count())
}

fn expr_size(alloc: Global, e: &Expr) -> Result<u32, NoMemory>
    ensures { IfOk result (λ size. size ≡ expr_size (tree_of e.now)) }
{
    let mut counted = Counted::new();
    emit_expr(alloc, &mut counted, &Nowhere, e)?;
    Ok(counted.count())
}

/// Returns the number of instructions of a part that an instruction skips.
fn items_over(alloc: Global, over: Over<'_>) -> Result<u32, NoMemory>
    ensures { IfOk result (λ count. count ≡ items_over over.entry) }
{
    match over {
        Over::Clause(clause) => next(clause_size(alloc, clause)?),
        Over::Statement(statement) => next(body_size(alloc, statement)?),
        Over::Value(e) => next(sum(expr_size(alloc, e)?, 2)?),
    }
}

/// Returns the instruction that skips a part.
pub fn jump_item(alloc: Global, jump: Jump<'_>, over: Over<'_>) -> Result<Item, NoMemory>
    ensures { IfOk result (λ one. one ≡ jump_item jump.entry (items_over over.entry)) }
{
    let count = items_over(alloc, over)?;
    match jump {
        Jump::Skip => Ok(Item::Skip(count)),
        Jump::SkipUnless => Ok(Item::SkipUnless(count)),
        Jump::SkipIf => Ok(Item::SkipIf(count)),
        Jump::SkipToElse => Ok(Item::SkipUnless(next(count)?)),
        Jump::BackIf(test) => Ok(Item::BackIf(sum(count, expr_size(alloc, test)?)?)),
        Jump::BackUnless(test) => Ok(Item::BackUnless(sum(count, expr_size(alloc, test)?)?)),
        Jump::OpenOrSkip { variable, place } => Ok(Item::OpenOrSkip {
            variable,
            place,
            count: next(count)?,
        }),
        Jump::StepBack { variable, place } => Ok(Item::StepBack {
            variable,
            place,
            count,
        }),
    }
}
