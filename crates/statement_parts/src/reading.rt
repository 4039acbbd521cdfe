//! The parts of statements: one function for each part that a form expects.

ghost use Rattle.std.specs.Prelude.{◌≡◌, ℕ, false, ◌+◌, ◌-◌, ◌<◌, ◌≤◌, length, MatchBool};
ghost use Rattle.basic_expr.specs.Views.{most_words};
ghost use Rattle.basic_tree.specs.TreeViews.{tree_of};
ghost use Rattle.grammar_machine.specs.MachineStack.{ExprOf, TakeKey, TakeSign};
ghost use Rattle.basic_tree.specs.declared.tokens.Sign.TheVariants.{Opening};
ghost use Rattle.statement_parts.specs.ParsedForms.{MayOpen, OpensThere, Parts, SkipsKey};
ghost use Rattle.statement_parts.specs.ParsedForms.{SkipsSign, TakesWord, TakesClosing};
ghost use Rattle.statement_parts.specs.ParsedForms.{TakesKeyword, TakesOpening, TakesSign};

use crate::read::Read;
use basic_expr::{Failure, Words, expression_at, next_is_key, next_is_sign};
use basic_tree::{Expr, Keyword, Sign, Want};
use std::alloc::Global;

/// Returns whether a keyword is at a place.
#[tactic(auto, using(crate::proofs::Steps::words_at))]
pub fn if_key(words: &Words<'_>, from: usize, key: Keyword) -> bool
    requires { from ≤ length words.now }
    ensures stands { MatchBool result (TakesKeyword words.now from key)
        (SkipsKey words.now from key) }
    ensures few { length words.now ≤ most_words }
{
    next_is_key(words, from, key)
}

/// Returns whether a sign is at a place.
#[tactic(auto, using(crate::proofs::Steps::words_at))]
pub fn if_sign(words: &Words<'_>, from: usize, sign: Sign) -> bool
    requires { from ≤ length words.now }
    ensures stands { MatchBool result (TakesSign words.now from sign)
        (SkipsSign words.now from sign) }
    ensures few { length words.now ≤ most_words }
{
    next_is_sign(words, from, sign)
}

/// Returns the place after this keyword, which has to be there.
#[tactic(auto, using(crate::proofs::Steps::words_at))]
pub fn take_key(words: &Words<'_>, from: usize, key: Keyword) -> Result<usize, Failure>
    requires { from ≤ length words.now }
    ensures { TakesWord words.now from (TakeKey false key) result }
{
    if next_is_key(words, from, key) {
        return Ok(from + 1);
    }
    Err(Failure::Wrong { place: from })
}

/// Returns the place after this sign, which has to be there.
#[tactic(auto, using(crate::proofs::Steps::words_at))]
pub fn take_sign(words: &Words<'_>, from: usize, sign: Sign) -> Result<usize, Failure>
    requires { from ≤ length words.now }
    ensures { TakesWord words.now from (TakeSign false sign) result }
{
    if next_is_sign(words, from, sign) {
        return Ok(from + 1);
    }
    Err(Failure::Wrong { place: from })
}

/// Reads an expression of the expected kind.
#[tactic(auto, using(crate::proofs::Steps::expressions))]
pub fn expression(
    alloc: Global,
    words: &Words<'_>,
    from: usize,
    want: Want,
    levels: usize,
) -> Result<Read<Expr>, Failure>
    requires { from ≤ length words.now }
    ensures { Parts levels words.now from (ExprOf want) (λ x g. g (tree_of x)) result }
{
    let found = expression_at(alloc, words, from, want, levels)?;
    Ok(Read {
        value: found.tree,
        end: found.end,
    })
}

/// Returns the place after an opening parenthesis, which has to be there and opens a level of
/// nesting.
#[tactic(auto, using(crate::proofs::Parts::openings))]
pub fn opening(words: &Words<'_>, from: usize, levels: usize) -> Result<usize, Failure>
    requires { from ≤ length words.now }
    ensures { TakesOpening levels words.now from result }
{
    if next_is_sign(words, from, Sign::Opening) {
        if 0 < levels {
            return Ok(from + 1);
        }
        return Err(Failure::TooDeep { place: from });
    }
    Err(Failure::Wrong { place: from })
}

/// Returns whether an opening parenthesis is at a place; it opens a level of nesting.
#[tactic(auto, using(crate::proofs::Parts::choices))]
pub fn if_opening(words: &Words<'_>, from: usize, levels: usize) -> Result<bool, Failure>
    requires { from ≤ length words.now }
    ensures few { length words.now ≤ most_words }
    ensures stands { MayOpen levels words.now from result }
{
    if next_is_sign(words, from, Sign::Opening) {
        if 0 < levels {
            return Ok(true);
        }
        return Err(Failure::TooDeep { place: from });
    }
    Ok(false)
}

/// Returns whether an opening parenthesis is at a place. It is not taken, and opens no nesting
/// level yet.
#[tactic(auto, using(crate::proofs::Steps::words_at, crate::proofs::Parts::awaited))]
pub fn opens_there(words: &Words<'_>, from: usize) -> bool
    requires { from ≤ length words.now }
    ensures stands { MatchBool result (OpensThere words.now from)
        (SkipsSign words.now from Opening) }
    ensures few { length words.now ≤ most_words }
{
    next_is_sign(words, from, Sign::Opening)
}

/// Returns the place after the closing parenthesis of a level of nesting, which has to be there.
#[tactic(auto, using(crate::proofs::Parts::closings))]
pub fn closing(words: &Words<'_>, from: usize, levels: usize) -> Result<usize, Failure>
    requires within { from ≤ length words.now }
    requires nested { 0 < levels }
    ensures { TakesClosing levels words.now from result }
{
    if next_is_sign(words, from, Sign::Closing) {
        return Ok(from + 1);
    }
    Err(Failure::Wrong { place: from })
}
