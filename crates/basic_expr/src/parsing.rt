//! Expressions, parsed from the tokens of a line.

ghost use Rattle.std.specs.Prelude.{◌≤◌, length};
ghost use Rattle.basic_tree.specs.SpellingWords.{words_of};
ghost use Rattle.basic_expr.specs.Parsing.{ParsesExpr};

use crate::expressions::expression_at;
use crate::words::Words;
use basic_scanner::Tokens;
use basic_tree::{Expr, Refusal, Want};
use basic_values::{NoMemory, Trouble};
use std::alloc::Global;

/// The largest nesting depth in a line. Parentheses of every kind, signs and NOT each open a
/// nesting level.
pub const MOST_LEVELS: usize = 64;

/// Parses the longest expression of the expected kind from a place of the tokens on, and returns it
/// with the place after it.
///
/// Let k be the largest place such that the tokens up to k begin some expression of that kind. If
/// they are an expression, and none of them opens a nesting level too many, it is returned. If not,
/// the first rejected token is: with `Syntax` at k, or with `TooDeep` at the token that opens
/// nesting level 65. Places are numbers of tokens, from 0; the end is the number of tokens.
pub fn parse_expr(
    alloc: Global,
    tokens: &Tokens<'_>,
    from: u16,
    want: Want,
) -> Result<(Expr, u16), Trouble<Refusal>>
    requires { from ≤ length tokens.now }
    ensures exact { ParsesExpr want (words_of tokens.now) from result }
{
    let words = match Words::of(alloc, tokens) {
        Ok(words) => words,
        Err(NoMemory) => return Err(Trouble::NoMemory),
    };
    match expression_at(alloc, &words, from as usize, want, MOST_LEVELS) {
        Ok(found) => Ok((found.tree, found.end as u16)),
        Err(failure) => Err(failure.trouble()),
    }
}
