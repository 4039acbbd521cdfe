//! Names, literals and quoted strings that a statement expects.

ghost use Rattle.std.specs.Prelude.{◌≡◌, ℕ, ◌+◌, ◌<◌, ◌≤◌, length, IfOk};
ghost use Rattle.basic_expr.specs.Views.{as_word, most_words};
ghost use Rattle.grammar_machine.specs.MachineStack.{NameIn, FnNameIn, LiteralIn, within};
ghost use Rattle.statement_parts.specs.ParsedForms.{FnNameAt, IfLiteral, IfQuoted, NameAt};
ghost use Rattle.statement_parts.specs.ParsedForms.{NumberAt, FlatParts, fn_named, limit_of, named};
ghost use Rattle.statement_parts.specs.ParsedForms.{number};

use crate::literals::Literal;
use crate::read::Read;
use basic_expr::{Failure, Word, Words, takes, text_of};
use basic_tree::{Name, Want};
use basic_values::{NoMemory, Text};
use std::alloc::Global;

fn named(word: Word<'_>) -> Option<Name>
    ensures { result ≡ named (as_word word.entry) }
{
    match word {
        Word::Named(name) => Some(name),
        _ => None,
    }
}

fn fn_named(word: Word<'_>) -> Option<Name>
    ensures { result ≡ fn_named (as_word word.entry) }
{
    match word {
        Word::FnNamed(name) => Some(name),
        _ => None,
    }
}

fn number(word: Word<'_>) -> Option<u16>
    ensures { result ≡ number (as_word word.entry) }
{
    match word {
        Word::Number(value) => Some(value),
        _ => None,
    }
}

/// Returns the name of a variable or an array at a place, if there is one.
#[tactic(auto, using(crate::proofs::Parts::places))]
pub fn next_name(words: &Words<'_>, from: usize) -> Option<Name>
    requires { from ≤ length words.now }
    ensures stands { NameAt words.now from result }
    ensures few { length words.now ≤ most_words }
{
    match words.peek(from) {
        None => None,
        Some(word) => named(word),
    }
}

#[tactic(auto, using(crate::proofs::Parts::places))]
fn next_fn_name(words: &Words<'_>, from: usize) -> Option<Name>
    requires { from ≤ length words.now }
    ensures stands { FnNameAt words.now from result }
    ensures few { length words.now ≤ most_words }
{
    match words.peek(from) {
        None => None,
        Some(word) => fn_named(word),
    }
}

#[tactic(auto, using(crate::proofs::Parts::places))]
fn next_number(words: &Words<'_>, from: usize) -> Option<u16>
    requires { from ≤ length words.now }
    ensures stands { NumberAt words.now from result }
    ensures few { length words.now ≤ most_words }
{
    match words.peek(from) {
        None => None,
        Some(word) => number(word),
    }
}

/// Returns whether a literal may have this value.
fn within(limit: Literal, value: u16) -> bool
    ensures { result ≡ within (limit_of limit) value }
{
    match limit {
        Literal::LineNumber => 0 < value && value < 32768,
        Literal::Bound => value < 32768,
        Literal::Size => value.is_power_of_two() && 1 < value && value < 513,
    }
}

/// Reads the name of a variable or an array of the expected kind.
#[tactic(auto, using(crate::proofs::Parts::names))]
pub fn name(words: &Words<'_>, from: usize, want: Want) -> Result<Read<Name>, Failure>
    requires { from ≤ length words.now }
    ensures { FlatParts words.now from (NameIn want) (λ x g. g x) result }
{
    match next_name(words, from) {
        None => Err(Failure::Wrong { place: from }),
        Some(name) => if takes(want, name.text) {
            Ok(Read {
                value: name,
                end: from + 1,
            })
        } else {
            Err(Failure::Wrong { place: from })
        },
    }
}

/// Reads the name of a function of the program.
#[tactic(auto, using(crate::proofs::Parts::names))]
pub fn fn_name(words: &Words<'_>, from: usize) -> Result<Read<Name>, Failure>
    requires { from ≤ length words.now }
    ensures { FlatParts words.now from FnNameIn (λ x g. g x) result }
{
    match next_fn_name(words, from) {
        None => Err(Failure::Wrong { place: from }),
        Some(name) => Ok(Read {
            value: name,
            end: from + 1,
        }),
    }
}

/// Reads a literal.
#[tactic(auto, using(crate::proofs::Parts::literals))]
pub fn literal(words: &Words<'_>, from: usize, limit: Literal) -> Result<Read<u16>, Failure>
    requires { from ≤ length words.now }
    ensures { FlatParts words.now from (LiteralIn (limit_of limit)) (λ x g. g x) result }
{
    match next_number(words, from) {
        None => Err(Failure::Wrong { place: from }),
        Some(value) => if within(limit, value) {
            Ok(Read {
                value,
                end: from + 1,
            })
        } else {
            Err(Failure::Wrong { place: from })
        },
    }
}

/// Returns the literal at a place, if one that is allowed there is there.
#[tactic(auto, using(crate::proofs::Parts::literals))]
pub fn if_literal(words: &Words<'_>, from: usize, limit: Literal) -> Option<u16>
    requires { from ≤ length words.now }
    ensures stands { IfLiteral (limit_of limit) words.now from result }
    ensures few { length words.now ≤ most_words }
{
    match next_number(words, from) {
        None => None,
        Some(value) => if within(limit, value) {
            Some(value)
        } else {
            None
        },
    }
}

/// Returns the quoted string at a place, if there is one.
#[tactic(auto, using(crate::proofs::Parts::quotations))]
pub fn if_quoted(alloc: Global, words: &Words<'_>, from: usize) -> Result<Option<Text>, NoMemory>
    requires { from ≤ length words.now }
    ensures stands { IfOk result (λ text. IfQuoted words.now from text) }
    ensures few { length words.now ≤ most_words }
{
    match words.peek(from) {
        None => Ok(None),
        Some(Word::Quotation(bytes)) => Ok(Some(text_of(alloc, bytes)?)),
        Some(Word::Key(_)) => Ok(None),
        Some(Word::Punctuation(_)) => Ok(None),
        Some(Word::Named(_)) => Ok(None),
        Some(Word::FnNamed(_)) => Ok(None),
        Some(Word::Number(_)) => Ok(None),
        Some(Word::Item(_)) => Ok(None),
    }
}
