//! CHAIN, the only statement in which a number comes right after a string.

ghost use Rattle.std.specs.Prelude.{◌≡◌, ℕ, ◌+◌, ◌<◌, ◌≤◌, drop, length, option_map, IfOk};
ghost use Rattle.std.specs.Prelude.{MatchBool};
ghost use Rattle.basic_expr.specs.Views.{as_word};
ghost use Rattle.basic_tree.specs.SpellingParts.{first_word, is_name};
ghost use Rattle.basic_tree.specs.SpellingWords.{Punctuation};
ghost use Rattle.std.specs.Prelude.{Some};
ghost use Rattle.basic_tree.specs.TreeViews.{tree_of, chain_line_of};
ghost use Rattle.grammar_machine.specs.MachineStack.{ExprOf};
ghost use Rattle.grammar_machine.specs.MachineSentences.{chain_form};
ghost use Rattle.basic_tree.specs.declared.kinds.Want.TheVariants.{Text};
ghost use Rattle.statement_lists.specs.Following.{EndsBefore, NothingFollows, NumberFollows};
ghost use Rattle.statement_lists.specs.Following.{chain_line_form, follows};
ghost use Rattle.statement_parts.specs.ParsedForms.{Parts, PartsFrom, States};

use basic_expr::{Failure, Word, Words, begins_value, expression_at};
use basic_tree::{ChainLine, Expr, Keyword, Sign, Statement, Want};
use statement_parts::{Read, expression, if_key, take_key};
use std::alloc::Global;

/// Reads the string of CHAIN. The place after it is that after its last word.
#[tactic(auto, using(crate::proofs::ChainSteps::programs))]
fn program(
    alloc: Global,
    words: &Words<'_>,
    from: usize,
    levels: usize,
) -> Result<Read<Expr>, Failure>
    requires { from ≤ length words.now }
    ensures reads { Parts levels words.now from (ExprOf Text) (λ x g. g (tree_of x)) result }
    ensures last { IfOk result (λ x. EndsBefore words.now x.end (tree_of x.value)) }
{
    let found = expression_at(alloc, words, from, Want::Text, levels)?;
    Ok(Read {
        value: found.tree,
        end: found.end,
    })
}

/// Returns whether a word is a name. A parenthesis after a name opens the name's own list.
fn is_name(word: Word<'_>) -> bool
    ensures { result ≡ is_name (Some (as_word word.entry)) }
{
    match word {
        Word::Named(_) => true,
        Word::FnNamed(_) => true,
        _ => false,
    }
}

/// Returns whether a name is at a place.
#[tactic(auto, using(crate::proofs::ChainSteps::stands_first))]
fn name_stands(words: &Words<'_>, place: usize) -> bool
    requires { place ≤ length words.now }
    ensures { result ≡ is_name (first_word (drop place words.now)) }
{
    match words.peek(place) {
        None => false,
        Some(word) => is_name(word),
    }
}

fn sign_follows(named: bool, sign: Sign) -> bool
    ensures { result ≡ follows named (Punctuation sign) }
{
    match sign {
        Sign::Plus => false,
        Sign::Minus => false,
        Sign::Opening => !named,
        _ => true,
    }
}

/// Returns whether a number can begin with a word, right after a name, or else after another word.
fn follows(named: bool, word: Word<'_>) -> bool
    ensures { result ≡ follows named (as_word word.entry) }
{
    match word {
        Word::Punctuation(sign) => sign_follows(named, sign),
        _ => true,
    }
}

/// Returns whether the number of CHAIN begins at a place, right after its string: not with a sign,
/// and not with a parenthesis that would belong to a name.
#[tactic(auto, using(crate::proofs::ChainSteps::following))]
fn number_follows(words: &Words<'_>, place: usize) -> bool
    requires within { place ≤ length words.now }
    requires behind { 0 < place }
    ensures { MatchBool result (NumberFollows words.now place) (NothingFollows words.now place) }
{
    let named = name_stands(words, place - 1);
    match words.peek(place) {
        None => false,
        Some(word) => begins_value(word) && follows(named, word),
    }
}

/// Reads the line of CHAIN after the string that names its program, if there is one.
#[tactic(auto, using(statement_parts::proofs::Steps::leading))]
fn line(
    alloc: Global,
    words: &Words<'_>,
    from: usize,
    program: &Expr,
    levels: usize,
) -> Result<Read<Option<ChainLine>>, Failure>
    requires within { from ≤ length words.now }
    requires behind { 0 < from }
    requires last { EndsBefore words.now from (tree_of program.now) }
    ensures { PartsFrom levels words.now from (chain_line_form (tree_of program.now))
        (λ x g. g (option_map chain_line_of x)) result }
{
    if if_key(words, from, Keyword::Line) {
        let Read { value: number, end } = expression(alloc, words, from + 1, Want::Number, levels)?;
        let line = Some(ChainLine { word: true, number });
        return Ok(Read { value: line, end });
    }
    if number_follows(words, from) {
        let Read { value: number, end } = expression(alloc, words, from, Want::Number, levels)?;
        let line = Some(ChainLine {
            word: false,
            number,
        });
        return Ok(Read { value: line, end });
    }
    Ok(Read {
        value: None,
        end: from,
    })
}

/// Reads CHAIN, the name of a program, and its line, if there is one.
#[tactic(auto, using(statement_parts::proofs::Steps::leading))]
pub fn chain(
    alloc: Global,
    words: &Words<'_>,
    from: usize,
    levels: usize,
) -> Result<Read<Statement>, Failure>
    requires { from ≤ length words.now }
    ensures { States levels words.now from chain_form result }
{
    let at = take_key(words, from, Keyword::Chain)?;
    let Read {
        value: program,
        end: behind,
    } = program(alloc, words, at, levels)?;
    let Read { value: line, end } = line(alloc, words, behind, &program, levels)?;
    Ok(Read {
        value: Statement::Chain { program, line },
        end,
    })
}
