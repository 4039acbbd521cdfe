//! Expressions by recursive descent: one function for each kind of symbol of the grammar's machine.

ghost use Rattle.std.specs.Prelude.{◌≡◌, ◌≤◌, ◌∷◌, [], true, length, IfOk};
ghost use Rattle.basic_expr.specs.Precedences.{is_chain, is_prefixed, level_number};
ghost use Rattle.basic_expr.specs.ParsedSymbols.{EndsBehind, EndsFrom, ReadsAll, ReadsAt};
ghost use Rattle.basic_expr.specs.ParsedSymbols.{ReadsSecond, WordStands, begins_atom};
ghost use Rattle.basic_expr.specs.ParsedSymbols.{function_expected, prefixed, second_tree};
ghost use Rattle.basic_expr.specs.ParsedSymbols.{trees_in};
ghost use Rattle.basic_expr.specs.Views.{as_word, most_words};
ghost use Rattle.grammar_machine.specs.MachineMoves.{right_of};
ghost use Rattle.grammar_machine.specs.MachineStack.{Arguments, Exponent, Level, Several};
ghost use Rattle.grammar_machine.specs.MachineStack.{Subscripts, loosest};
ghost use Rattle.basic_tree.specs.SpellingExpressions.{is_text};
ghost use Rattle.basic_tree.specs.SpellingWords.{Punctuation};
ghost use Rattle.basic_tree.specs.TreeViews.{tree_of};
ghost use Rattle.basic_tree.specs.Trees.{AndTrees, Call, Comparison, Element, FunctionOf};
ghost use Rattle.basic_tree.specs.Trees.{NoTrees, Operation, Parenthesized};
ghost use Rattle.basic_tree.specs.declared.tokens.Sign.TheVariants.{Opening};

use crate::failures::{Failure, Found};
use crate::precedence::{LOOSEST, Precedence, right_precedence, tighter};
use crate::signs::{
    Prefix, expect, next_is_sign, next_operator, next_prefix, next_relation, next_sign,
};
use crate::tables::{arguments_of, function_of, side, takes, takes_relations, want_of};
use crate::words::{Word, Words, text_of};
use basic_tree::{Expr, Function, Name, Operator, Relation, Sign, Want};
use basic_values::NoMemory;
use std::alloc::Global;

// A tree from its parts

fn prefixed(alloc: Global, prefix: Prefix, operand: Expr) -> Result<Expr, NoMemory>
    ensures { IfOk result (λ e. tree_of e ≡ prefixed prefix (tree_of operand)) }
{
    let operand = Box::new(alloc, operand)?;
    Ok(match prefix {
        Prefix::Minus => Expr::Negative(operand),
        Prefix::Plus => Expr::Positive(operand),
        Prefix::Not => Expr::Not(operand),
    })
}

fn parenthesized(alloc: Global, inner: Expr) -> Result<Expr, NoMemory>
    ensures { IfOk result (λ e. tree_of e ≡ Parenthesized (tree_of inner)) }
{
    Ok(Expr::Parenthesized(Box::new(alloc, inner)?))
}

fn operation(alloc: Global, left: Expr, operator: Operator, right: Expr) -> Result<Expr, NoMemory>
    ensures { IfOk result (λ e. tree_of e ≡ Operation (tree_of left) operator (tree_of right)) }
{
    Ok(Expr::Operation {
        left: Box::new(alloc, left)?,
        operator,
        right: Box::new(alloc, right)?,
    })
}

fn comparison(alloc: Global, left: Expr, relation: Relation, right: Expr) -> Result<Expr, NoMemory>
    ensures { IfOk result (λ e. tree_of e ≡ Comparison (tree_of left) relation (tree_of right)) }
{
    Ok(Expr::Relation {
        left: Box::new(alloc, left)?,
        relation,
        right: Box::new(alloc, right)?,
    })
}

fn element(alloc: Global, name: Name, first: Expr, second: Option<Expr>) -> Result<Expr, NoMemory>
    ensures { IfOk result
        (λ e. tree_of e ≡ Element name (AndTrees (tree_of first) (second_tree second))) }
{
    let first = Box::new(alloc, first)?;
    let second = match second {
        None => None,
        Some(second) => Some(Box::new(alloc, second)?),
    };
    Ok(Expr::Element {
        name,
        first,
        second,
    })
}

fn call(name: Name, arguments: Vec<Expr>) -> Expr
    ensures { tree_of result ≡ Call name (trees_in arguments.items) }
{
    Expr::Call { name, arguments }
}

fn applied(function: Function, arguments: Vec<Expr>) -> Expr
    ensures { tree_of result ≡ FunctionOf function (trees_in arguments.items) }
{
    Expr::Function {
        function,
        arguments,
    }
}

// Precedences

/// Parses an expression of a precedence.
#[cycle(expression)]
fn parse_level(
    alloc: Global,
    words: &Words<'_>,
    from: usize,
    want: Want,
    precedence: Precedence,
    levels: usize,
) -> Result<Found, Failure>
    requires { from ≤ length words.now }
    ensures reads { ReadsAt levels words.now (Level (level_number precedence) want) from result }
    ensures ends { EndsBehind words.now from result }
{
    match precedence {
        Precedence::Atom => parse_atom(alloc, words, from, want, levels),
        Precedence::Sign | Precedence::Not => parse_prefixed(
            alloc, words, from, want, precedence, levels,
        ),
        Precedence::Relation => parse_relations(alloc, words, from, want, levels),
        _ => parse_chain(alloc, words, from, want, precedence, levels),
    }
}

/// Parses operands that are separated by operators of one precedence, from left to right.
#[cycle(expression)]
fn parse_chain(
    alloc: Global,
    words: &Words<'_>,
    from: usize,
    want: Want,
    precedence: Precedence,
    levels: usize,
) -> Result<Found, Failure>
    requires within { from ≤ length words.now }
    requires chain { is_chain precedence ≡ true }
    ensures reads { ReadsAt levels words.now (Level (level_number precedence) want) from result }
    ensures ends { EndsBehind words.now from result }
{
    let mut left = parse_level(alloc, words, from, want, tighter(precedence), levels)?;
    'operands: while let Some(operator) = next_operator(words, left.end, precedence, left.text) {
        let right = parse_right(alloc, words, left.end + 1, operator, left.text, levels)?;
        left = Found {
            tree: operation(alloc, left.tree, operator, right.tree)?,
            text: left.text,
            end: right.end,
        };
    }
    Ok(left)
}

/// Parses what follows an operator.
#[cycle(expression)]
fn parse_right(
    alloc: Global,
    words: &Words<'_>,
    from: usize,
    operator: Operator,
    text: bool,
    levels: usize,
) -> Result<Found, Failure>
    requires { from ≤ length words.now }
    ensures reads { ReadsAt levels words.now (right_of operator text) from result }
    ensures ends { EndsBehind words.now from result }
{
    match right_precedence(operator) {
        Some(precedence) => parse_level(alloc, words, from, want_of(text), precedence, levels),
        None => parse_exponent(alloc, words, from, levels),
    }
}

/// Parses signs and an atom, after `^`.
#[cycle(expression)]
fn parse_exponent(
    alloc: Global,
    words: &Words<'_>,
    from: usize,
    levels: usize,
) -> Result<Found, Failure>
    requires { from ≤ length words.now }
    ensures reads { ReadsAt levels words.now Exponent from result }
    ensures ends { EndsBehind words.now from result }
{
    match next_sign(words, from) {
        None => parse_atom(alloc, words, from, Want::Number, levels),
        Some(sign) => {
            if levels == 0 {
                return Err(Failure::TooDeep { place: from });
            }
            let operand = parse_exponent(alloc, words, from + 1, levels - 1)?;
            Ok(Found {
                tree: prefixed(alloc, sign, operand.tree)?,
                text: false,
                end: operand.end,
            })
        }
    }
}

/// Parses a sign, or NOT, and its operand; or else an operand of the next higher precedence.
#[cycle(expression)]
fn parse_prefixed(
    alloc: Global,
    words: &Words<'_>,
    from: usize,
    want: Want,
    precedence: Precedence,
    levels: usize,
) -> Result<Found, Failure>
    requires within { from ≤ length words.now }
    requires prefixed { is_prefixed precedence ≡ true }
    ensures reads { ReadsAt levels words.now (Level (level_number precedence) want) from result }
    ensures ends { EndsBehind words.now from result }
{
    match next_prefix(words, from, precedence) {
        None => parse_level(alloc, words, from, want, tighter(precedence), levels),
        Some(prefix) => {
            if !takes(want, false) {
                return Err(Failure::Wrong { place: from });
            }
            if levels == 0 {
                return Err(Failure::TooDeep { place: from });
            }
            let operand = parse_prefixed(
                alloc,
                words,
                from + 1,
                Want::Number,
                precedence,
                levels - 1,
            )?;
            Ok(Found {
                tree: prefixed(alloc, prefix, operand.tree)?,
                text: false,
                end: operand.end,
            })
        }
    }
}

/// Parses relations from left to right. The left side of one may be a string, even if the whole has
/// to be a number.
#[cycle(expression)]
fn parse_relations(
    alloc: Global,
    words: &Words<'_>,
    from: usize,
    want: Want,
    levels: usize,
) -> Result<Found, Failure>
    requires { from ≤ length words.now }
    ensures reads { ReadsAt levels words.now (Level 5 want) from result }
    ensures ends { EndsBehind words.now from result }
{
    let mut left = parse_level(alloc, words, from, side(want), Precedence::Sum, levels)?;
    if !takes_relations(want) {
        return Ok(left);
    }
    'relations: while let Some(relation) = next_relation(words, left.end) {
        let want = want_of(left.text);
        let right = parse_level(alloc, words, left.end + 1, want, Precedence::Sum, levels)?;
        left = Found {
            tree: comparison(alloc, left.tree, relation, right.tree)?,
            text: false,
            end: right.end,
        };
    }
    if left.text && matches!(want, Want::Number) {
        return Err(Failure::Wrong { place: left.end });
    }
    Ok(left)
}

// Atoms

/// Returns whether an atom of the expected kind begins with this word.
fn begins_atom(want: Want, word: Word<'_>) -> bool
    ensures { result ≡ begins_atom want (as_word word.entry) }
{
    match word {
        Word::Number(n) => takes(want, false) && n < 32768,
        Word::Quotation(_) => takes(want, true),
        Word::Named(name) | Word::FnNamed(name) => takes(want, name.text),
        Word::Punctuation(sign) => Sign::Opening == sign,
        Word::Key(key) => match function_of(key) {
            None => false,
            Some(function) => takes(want, function.gives_text()),
        },
        Word::Item(_) => false,
    }
}

/// Parses a number, a string, a name with its subscripts or arguments, or an expression in
/// parentheses.
#[cycle(expression)]
fn parse_atom(
    alloc: Global,
    words: &Words<'_>,
    from: usize,
    want: Want,
    levels: usize,
) -> Result<Found, Failure>
    requires { from ≤ length words.now }
    ensures reads { ReadsAt levels words.now (Level 0 want) from result }
    ensures ends { EndsBehind words.now from result }
{
    let word = match words.peek(from) {
        None => return Err(Failure::Wrong { place: from }),
        Some(word) => word,
    };
    if !begins_atom(want, word) {
        return Err(Failure::Wrong { place: from });
    }
    match word {
        Word::Number(n) => Ok(Found {
            tree: Expr::Literal(n),
            text: false,
            end: from + 1,
        }),
        Word::Quotation(bytes) => Ok(Found {
            tree: Expr::Quoted(text_of(alloc, bytes)?),
            text: true,
            end: from + 1,
        }),
        Word::Named(name) => subscripts_at(alloc, words, from + 1, name, levels),
        Word::FnNamed(name) => parse_call(alloc, words, from + 1, name, levels),
        Word::Key(key) => match function_of(key) {
            None => Err(Failure::Wrong { place: from }),
            Some(function) => parse_function(alloc, words, from + 1, function, levels),
        },
        Word::Punctuation(_) => parse_parenthesized(alloc, words, from, want, levels),
        Word::Item(_) => Err(Failure::Wrong { place: from }),
    }
}

/// Parses an expression in parentheses.
#[cycle(expression)]
fn parse_parenthesized(
    alloc: Global,
    words: &Words<'_>,
    from: usize,
    want: Want,
    levels: usize,
) -> Result<Found, Failure>
    requires stands { WordStands words.now (Punctuation Opening) from }
    requires few { length words.now ≤ most_words }
    ensures reads { ReadsAt levels words.now (Level 0 want) from result }
    ensures ends { EndsBehind words.now from result }
{
    if levels == 0 {
        return Err(Failure::TooDeep { place: from });
    }
    let inner = parse_level(alloc, words, from + 1, want, LOOSEST, levels - 1)?;
    let end = expect(words, inner.end, Sign::Closing)?;
    Ok(Found {
        tree: parenthesized(alloc, inner.tree)?,
        text: inner.text,
        end,
    })
}

/// Parses what follows the name of a variable or an array: its subscripts, or nothing.
#[cycle(expression)]
pub fn subscripts_at(
    alloc: Global,
    words: &Words<'_>,
    from: usize,
    name: Name,
    levels: usize,
) -> Result<Found, Failure>
    requires { from ≤ length words.now }
    ensures reads { ReadsAt levels words.now (Subscripts name) from result }
    ensures ends { EndsFrom words.now from result }
{
    if !next_is_sign(words, from, Sign::Opening) {
        return Ok(Found {
            tree: Expr::Variable(name),
            text: name.text,
            end: from,
        });
    }
    if levels == 0 {
        return Err(Failure::TooDeep { place: from });
    }
    let first = parse_level(alloc, words, from + 1, Want::Number, LOOSEST, levels - 1)?;
    let (second, behind) = second_subscript(alloc, words, first.end, levels - 1)?;
    let end = expect(words, behind, Sign::Closing)?;
    Ok(Found {
        tree: element(alloc, name, first.tree, second)?,
        text: name.text,
        end,
    })
}

/// Parses a comma and a second subscript, or nothing.
#[cycle(expression)]
fn second_subscript(
    alloc: Global,
    words: &Words<'_>,
    from: usize,
    levels: usize,
) -> Result<(Option<Expr>, usize), Failure>
    requires { from ≤ length words.now }
    ensures { ReadsSecond levels words.now from result }
{
    if !next_is_sign(words, from, Sign::Comma) {
        return Ok((None, from));
    }
    let second = parse_level(alloc, words, from + 1, Want::Number, LOOSEST, levels)?;
    Ok((Some(second.tree), second.end))
}

/// Parses what follows the name of a function of the program: its arguments, or nothing.
#[cycle(expression)]
fn parse_call(
    alloc: Global,
    words: &Words<'_>,
    from: usize,
    name: Name,
    levels: usize,
) -> Result<Found, Failure>
    requires { from ≤ length words.now }
    ensures reads { ReadsAt levels words.now (Arguments name) from result }
    ensures ends { EndsFrom words.now from result }
{
    let mut arguments = Vec::new(alloc);
    if !next_is_sign(words, from, Sign::Opening) {
        return Ok(Found {
            tree: call(name, arguments),
            text: name.text,
            end: from,
        });
    }
    if levels == 0 {
        return Err(Failure::TooDeep { place: from });
    }
    let first = parse_level(alloc, words, from + 1, Want::Either, LOOSEST, levels - 1)?;
    arguments.push(first.tree)?;
    let mut place = first.end;
    'arguments: while next_is_sign(words, place, Sign::Comma) {
        let next = parse_level(alloc, words, place + 1, Want::Either, LOOSEST, levels - 1)?;
        arguments.push(next.tree)?;
        place = next.end;
    }
    let end = expect(words, place, Sign::Closing)?;
    Ok(Found {
        tree: call(name, arguments),
        text: name.text,
        end,
    })
}

/// Parses what follows the word of a function of the language: as many arguments as it has.
#[cycle(expression)]
fn parse_function(
    alloc: Global,
    words: &Words<'_>,
    from: usize,
    function: Function,
    levels: usize,
) -> Result<Found, Failure>
    requires { from ≤ length words.now }
    ensures reads { ReadsAll levels words.now (function_expected function) (Several NoTrees ∷ [])
        from result }
    ensures ends { EndsFrom words.now from result }
{
    let wants = arguments_of(function);
    let mut arguments = Vec::new(alloc);
    if wants.is_empty() {
        return Ok(Found {
            tree: applied(function, arguments),
            text: function.gives_text(),
            end: from,
        });
    }
    if !next_is_sign(words, from, Sign::Opening) {
        return Err(Failure::Wrong { place: from });
    }
    if levels == 0 {
        return Err(Failure::TooDeep { place: from });
    }
    let first = parse_level(alloc, words, from + 1, wants[0], LOOSEST, levels - 1)?;
    arguments.push(first.tree)?;
    let mut place = first.end;
    'arguments: while arguments.len() < wants.len() {
        let behind = expect(words, place, Sign::Comma)?;
        let want = wants[arguments.len()];
        let next = parse_level(alloc, words, behind, want, LOOSEST, levels - 1)?;
        arguments.push(next.tree)?;
        place = next.end;
    }
    let end = expect(words, place, Sign::Closing)?;
    Ok(Found {
        tree: applied(function, arguments),
        text: function.gives_text(),
        end,
    })
}

/// Parses the longest expression of the expected kind from a place on, with this many levels of
/// nesting left.
pub fn expression_at(
    alloc: Global,
    words: &Words<'_>,
    from: usize,
    want: Want,
    levels: usize,
) -> Result<Found, Failure>
    requires { from ≤ length words.now }
    ensures reads { ReadsAt levels words.now (Level loosest want) from result }
    ensures ends { EndsBehind words.now from result }
{
    parse_level(alloc, words, from, want, LOOSEST, levels)
}
