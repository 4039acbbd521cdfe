//! IF: its condition, its clause, and an optional ELSE with another clause.

ghost use Rattle.std.specs.Prelude.{◌≡◌, ◌≤◌, ◌<◌, length, IfOk, IfErr, MatchBool, MatchOption};
ghost use Rattle.basic_expr.specs.Views.{as_word, most_words};
ghost use Rattle.basic_expr.specs.declared.failures.Failure.TheVariants.{NoMemory};
ghost use Rattle.basic_tree.specs.Trees.{IfThen, IfGoto, StatementClause};
ghost use Rattle.basic_tree.specs.TreeViews.{tree_of};
ghost use Rattle.basic_tree.specs.StatementViews.{statement_of, clause_of};
ghost use Rattle.grammar_machine.specs.MachineSentences.{if_form};
ghost use Rattle.statement_parts.specs.ParsedForms.{SkipsKey};
ghost use Rattle.basic_line.specs.Structure.{IsLineNumber, NoLineNumber, OpensKey, SentenceAt};
ghost use Rattle.basic_line.specs.Structure.{StatesClauseIn, StatesElse, StatesIf, StatesSimple};
ghost use Rattle.basic_line.specs.Structure.{StatesThen, else_tree, goto_form, line_in};
ghost use Rattle.basic_line.specs.declared.sentences.Class.TheVariants.{Simple};

use crate::sentences::{Class, class_at};
use basic_expr::{Failure, Word, Words, next_is_key};
use basic_stmt::plain_at;
use basic_tree::{Clause, Expr, Keyword, Statement, Want};
use statement_modifiers::modifiers;
use statement_parts::{Read, expression, take_key};
use std::alloc::Global;

/// A statement, whether an ELSE after it would belong to it, and the place after it.
#[derive(Drop)]
pub(crate) struct Stated {
    pub statement: Statement,
    pub takes_else: bool,
    pub end: usize,
}

/// A clause, whether an ELSE after it would belong to it, and the place after it.
#[derive(Drop)]
pub(crate) struct ClauseRead {
    pub clause: Clause,
    pub takes_else: bool,
    pub end: usize,
}

/// ELSE and a clause, or nothing; whether an ELSE after it would belong to it; and the place after
/// it.
#[derive(Drop)]
pub(crate) struct Otherwise {
    pub clause: Option<Clause>,
    pub takes_else: bool,
    pub end: usize,
}

/// Returns whether a keyword that opens a level of nesting is at a place.
#[tactic(auto, using(crate::proofs::ClauseSteps::openings))]
fn opens(words: &Words<'_>, from: usize, key: Keyword) -> bool
    requires { from ≤ length words.now }
    ensures key { MatchBool result (OpensKey words.now from key) (SkipsKey words.now from key) }
    ensures few { length words.now ≤ most_words }
{
    next_is_key(words, from, key)
}

/// Returns the line number at a place, if there is one.
#[tactic(auto, using(crate::proofs::ClauseSteps::numbers))]
fn line_number(words: &Words<'_>, from: usize) -> Option<u16>
    requires { from ≤ length words.now }
    ensures line { MatchOption result (NoLineNumber words.now from)
        (λ line. IsLineNumber words.now from line) }
    ensures few { length words.now ≤ most_words }
{
    match words.peek(from) {
        None => None,
        Some(word) => line_of(word),
    }
}

/// Returns the line number that a word is, if it is one.
fn line_of(word: Word<'_>) -> Option<u16>
    ensures { result ≡ line_in (as_word word.entry) }
{
    match word {
        Word::Number(line) => if 0 < line && line < 32768 {
            Some(line)
        } else {
            None
        },
        _ => None,
    }
}

// Trees from their parts

fn statement_clause(alloc: Global, statement: Statement) -> Result<Clause, Failure>
    ensures clause { IfOk result (λ c. clause_of c ≡ StatementClause (statement_of statement)) }
    ensures lost { IfErr result (λ e. e ≡ NoMemory) }
{
    // Not by `?`, whose calls take a third of the time of this function's proof.
    match Box::new(alloc, statement) {
        Ok(statement) => Ok(Clause::Statement(statement)),
        Err(_) => Err(Failure::NoMemory),
    }
}

fn if_then(condition: Expr, clause: Clause, otherwise: Option<Clause>) -> Statement
    ensures { statement_of result ≡ IfThen (tree_of condition) (clause_of clause)
        (else_tree otherwise) }
{
    Statement::IfThen {
        condition,
        clause,
        otherwise,
    }
}

fn if_goto(condition: Expr, line: u16, otherwise: Option<Clause>) -> Statement
    ensures { statement_of result ≡ IfGoto (tree_of condition) line (else_tree otherwise) }
{
    Statement::IfGoto {
        condition,
        line,
        otherwise,
    }
}

// Statements without a clause

/// Reads a statement with its modifiers. It may be a clause.
pub(crate) fn simple_at(
    alloc: Global,
    words: &Words<'_>,
    from: usize,
    levels: usize,
) -> Result<Read<Statement>, Failure>
    requires within { from ≤ length words.now }
    requires sentence { SentenceAt words.now from Simple }
    ensures { StatesSimple levels words.now from result }
{
    let Read {
        value: statement,
        end,
    } = plain_at(alloc, words, from, levels)?;
    modifiers(alloc, words, end, statement, levels)
}

// IF

/// Reads an IF, from its first word.
#[cycle(choices)]
#[tactic(auto, using(crate::proofs::ClauseSteps::choices))]
pub(crate) fn if_at(
    alloc: Global,
    words: &Words<'_>,
    from: usize,
    levels: usize,
) -> Result<Stated, Failure>
    requires { from ≤ length words.now }
    ensures { StatesIf levels words.now from if_form result }
{
    let behind = take_key(words, from, Keyword::If)?;
    let Read {
        value: condition,
        end,
    } = expression(alloc, words, behind, Want::Number, levels)?;
    if opens(words, end, Keyword::Then) {
        if levels == 0 {
            return Err(Failure::TooDeep { place: end });
        }
        then_at(alloc, words, end + 1, condition, levels)
    } else {
        goto_at(alloc, words, end, condition, levels)
    }
}

/// Reads what follows THEN. The nesting level that THEN opened counts among the `levels` that are
/// left.
#[cycle(choices)]
#[tactic(auto, using(crate::proofs::ClauseSteps::choices))]
fn then_at(
    alloc: Global,
    words: &Words<'_>,
    from: usize,
    condition: Expr,
    levels: usize,
) -> Result<Stated, Failure>
    requires within { from ≤ length words.now }
    requires inside { 0 < levels }
    ensures { StatesThen levels words.now from (tree_of condition) result }
{
    let then = clause_at(alloc, words, from, levels)?;
    let otherwise = else_at(alloc, words, then.end, then.takes_else, levels)?;
    Ok(Stated {
        statement: if_then(condition, then.clause, otherwise.clause),
        takes_else: otherwise.takes_else,
        end: otherwise.end,
    })
}

/// Reads GOTO and what follows it.
#[cycle(choices)]
#[tactic(auto, using(crate::proofs::ClauseSteps::choices))]
fn goto_at(
    alloc: Global,
    words: &Words<'_>,
    from: usize,
    condition: Expr,
    levels: usize,
) -> Result<Stated, Failure>
    requires { from ≤ length words.now }
    ensures { StatesIf levels words.now from (goto_form (tree_of condition)) result }
{
    let behind = take_key(words, from, Keyword::Goto)?;
    let line = match line_number(words, behind) {
        None => return Err(Failure::Wrong { place: behind }),
        Some(line) => line,
    };
    let otherwise = else_at(alloc, words, behind + 1, false, levels)?;
    Ok(Stated {
        statement: if_goto(condition, line, otherwise.clause),
        takes_else: otherwise.takes_else,
        end: otherwise.end,
    })
}

/// Reads ELSE and its clause, or nothing, even if an ELSE would belong to the clause before.
#[cycle(choices)]
#[tactic(auto, using(crate::proofs::ClauseSteps::choices))]
fn else_at(
    alloc: Global,
    words: &Words<'_>,
    from: usize,
    taken: bool,
    levels: usize,
) -> Result<Otherwise, Failure>
    requires { from ≤ length words.now }
    ensures { StatesElse levels words.now from taken result }
{
    if taken {
        return Ok(Otherwise {
            clause: None,
            takes_else: true,
            end: from,
        });
    }
    if !opens(words, from, Keyword::Else) {
        return Ok(Otherwise {
            clause: None,
            takes_else: true,
            end: from,
        });
    }
    if levels == 0 {
        return Err(Failure::TooDeep { place: from });
    }
    let found = clause_at(alloc, words, from + 1, levels)?;
    Ok(Otherwise {
        clause: Some(found.clause),
        takes_else: found.takes_else,
        end: found.end,
    })
}

/// Reads a clause: a line number, an IF, or a statement with its modifiers. The clause's own
/// nesting level ends with it, and counts among the `levels` that are left.
#[cycle(choices)]
#[tactic(auto, using(crate::proofs::ClauseSteps::choices))]
fn clause_at(
    alloc: Global,
    words: &Words<'_>,
    from: usize,
    levels: usize,
) -> Result<ClauseRead, Failure>
    requires within { from ≤ length words.now }
    requires inside { 0 < levels }
    ensures { StatesClauseIn levels words.now from result }
{
    match class_at(words, from) {
        Some(Class::Choice) => {
            let found = if_at(alloc, words, from, levels - 1)?;
            Ok(ClauseRead {
                clause: statement_clause(alloc, found.statement)?,
                takes_else: found.takes_else,
                end: found.end,
            })
        }
        Some(Class::Simple) => {
            let Read {
                value: statement,
                end,
            } = simple_at(alloc, words, from, levels - 1)?;
            Ok(ClauseRead {
                clause: statement_clause(alloc, statement)?,
                takes_else: false,
                end,
            })
        }
        Some(Class::Head) => Err(Failure::Wrong { place: from }),
        None => match line_number(words, from) {
            Some(line) => Ok(ClauseRead {
                clause: Clause::Line(line),
                takes_else: false,
                end: from + 1,
            }),
            None => Err(Failure::Wrong { place: from }),
        },
    }
}
