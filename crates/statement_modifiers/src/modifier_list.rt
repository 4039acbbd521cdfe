//! Modifiers, which follow the statements that they change.

ghost use Rattle.std.specs.Prelude.{◌≡◌, ◌≤◌, length, drop, IfOk, IfErr, MatchOption};
ghost use Rattle.basic_expr.specs.ParsedSymbols.{WordStands};
ghost use Rattle.basic_expr.specs.Views.{as_word, most_words};
ghost use Rattle.basic_tree.specs.SpellingWords.{Key};
ghost use Rattle.basic_tree.specs.Trees.{Modified};
ghost use Rattle.basic_tree.specs.TreeViews.{modifier_of};
ghost use Rattle.basic_tree.specs.StatementViews.{statement_of};
ghost use Rattle.basic_expr.specs.declared.failures.Failure.TheVariants.{NoMemory};
ghost use Rattle.statement_modifiers.specs.declared.modifier_list.Modifying.TheVariants.{For};
ghost use Rattle.statement_modifiers.specs.ModifierForms.{MakesModifier, ModifiesAll, NoModifier};
ghost use Rattle.statement_modifiers.specs.ModifierForms.{key_as, kind_in, kind_of};

use basic_expr::{Failure, Word, Words};
use basic_tree::{Keyword, Modifier, Statement, Want};
use statement_parts::{Read, expression, range};
use std::alloc::Global;

/// Which modifier begins with a word.
#[derive(Clone, Copy, PartialEq, Eq)]
pub(crate) enum Modifying {
    If,
    Unless,
    While,
    Until,
    For,
}

/// Returns the modifier that begins with this keyword, if there is one.
fn key_kind(key: Keyword) -> Option<Modifying>
    ensures { result ≡ kind_of key }
{
    match key {
        Keyword::If => Some(Modifying::If),
        Keyword::Unless => Some(Modifying::Unless),
        Keyword::While => Some(Modifying::While),
        Keyword::Until => Some(Modifying::Until),
        Keyword::For => Some(Modifying::For),
        _ => None,
    }
}

/// Returns the modifier that begins with this word, if there is one.
fn word_kind(word: Word<'_>) -> Option<Modifying>
    ensures { result ≡ kind_in (as_word word.entry) }
{
    match word {
        Word::Key(key) => key_kind(key),
        _ => None,
    }
}

/// Returns the modifier that begins at a place, if there is one.
#[tactic(auto, using(crate::proofs::ModifierSteps::modifier_places))]
fn next_modifier(words: &Words<'_>, from: usize) -> Option<Modifying>
    requires { from ≤ length words.now }
    ensures kind { MatchOption result (NoModifier (drop from words.now))
        (λ m. WordStands words.now (Key (key_as m)) from) }
    ensures few { length words.now ≤ most_words }
{
    match words.peek(from) {
        None => None,
        Some(word) => word_kind(word),
    }
}

/// Reads what follows FOR.
#[tactic(auto, using(crate::proofs::ModifierSteps::bodies))]
fn loop_body(
    alloc: Global,
    words: &Words<'_>,
    from: usize,
    levels: usize,
) -> Result<Read<Modifier>, Failure>
    requires { from ≤ length words.now }
    ensures { MakesModifier levels words.now from For result }
{
    let Read { value: found, end } = range(alloc, words, from, levels)?;
    let value = Modifier::For {
        variable: found.variable,
        from: found.start,
        to: found.limit,
        step: found.step,
    };
    Ok(Read { value, end })
}

/// Reads what follows the word of a modifier.
#[tactic(auto, using(crate::proofs::ModifierSteps::bodies))]
fn modifier_body(
    alloc: Global,
    words: &Words<'_>,
    from: usize,
    kind: Modifying,
    levels: usize,
) -> Result<Read<Modifier>, Failure>
    requires { from ≤ length words.now }
    ensures { MakesModifier levels words.now from kind result }
{
    match kind {
        Modifying::For => {
            let found = loop_body(alloc, words, from, levels)?;
            Ok(found)
        }
        Modifying::If => {
            let Read { value, end } = expression(alloc, words, from, Want::Number, levels)?;
            Ok(Read {
                value: Modifier::If(value),
                end,
            })
        }
        Modifying::Unless => {
            let Read { value, end } = expression(alloc, words, from, Want::Number, levels)?;
            Ok(Read {
                value: Modifier::Unless(value),
                end,
            })
        }
        Modifying::While => {
            let Read { value, end } = expression(alloc, words, from, Want::Number, levels)?;
            Ok(Read {
                value: Modifier::While(value),
                end,
            })
        }
        Modifying::Until => {
            let Read { value, end } = expression(alloc, words, from, Want::Number, levels)?;
            Ok(Read {
                value: Modifier::Until(value),
                end,
            })
        }
    }
}

/// Returns the statement with one more modifier.
fn modified(alloc: Global, statement: Statement, modifier: Modifier) -> Result<Statement, Failure>
    ensures statement { IfOk result
        (λ s. statement_of s ≡ Modified (statement_of statement) (modifier_of modifier)) }
    ensures lost { IfErr result (λ e. e ≡ NoMemory) }
{
    // Not by `?`, whose calls take a third of the time of this function's proof.
    match Box::new(alloc, statement) {
        Ok(statement) => Ok(Statement::Modified {
            statement,
            modifier,
        }),
        Err(_) => Err(Failure::NoMemory),
    }
}

/// Reads the modifiers after a statement, and returns the statement with them. Each opens a level
/// of nesting that lasts to the statement's end.
#[tactic(auto, using(crate::proofs::ModifierSteps::modifying))]
pub fn modifiers(
    alloc: Global,
    words: &Words<'_>,
    from: usize,
    statement: Statement,
    levels: usize,
) -> Result<Read<Statement>, Failure>
    requires { from ≤ length words.now }
    ensures { ModifiesAll levels words.now from (statement_of statement) result }
{
    let kind = match next_modifier(words, from) {
        None => return Ok(Read {
            value: statement,
            end: from,
        }),
        Some(kind) => kind,
    };
    if levels == 0 {
        return Err(Failure::TooDeep { place: from });
    }
    let Read {
        value: modifier,
        end,
    } = modifier_body(alloc, words, from + 1, kind, levels - 1)?;
    let statement = modified(alloc, statement, modifier)?;
    modifiers(alloc, words, end, statement, levels - 1)
}
