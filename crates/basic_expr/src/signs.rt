//! Tests of the word at a place: signs, keywords, operators and prefixes.

ghost use Rattle.std.specs.Prelude.{◌≡◌, ◌≤◌, ◌-◌, true, drop, length, MatchBool};
ghost use Rattle.basic_expr.specs.Views.{as_word, most_words};
ghost use Rattle.basic_expr.specs.Precedences.{is_prefixed, level_number};
ghost use Rattle.basic_expr.specs.ParsedSymbols.{First, OperatorAt, PrefixAt, ReadsSign};
ghost use Rattle.basic_expr.specs.ParsedSymbols.{RelationAt, WordStands, always, exponents};
ghost use Rattle.basic_expr.specs.ParsedSymbols.{goes_on, is_key, is_sign, number_atom};
ghost use Rattle.basic_expr.specs.ParsedSymbols.{signed_level, takes_number};
ghost use Rattle.grammar_machine.specs.MachineStack.{Level, Exponent};
ghost use Rattle.grammar_machine.specs.MachineForms.{begins_value, is_known, key_begins};
ghost use Rattle.grammar_machine.specs.GrammarWords.{function_of, operator_of, relation_of};
ghost use Rattle.basic_tree.specs.SpellingWords.{Punctuation, Key as KeyWord};
ghost use Rattle.basic_tree.specs.declared.kinds.Want.TheVariants.{Number};

use crate::failures::Failure;
use crate::precedence::{Precedence, precedence_of};
use crate::tables::{function_of, joins_texts, key_operator, sign_operator, sign_relation};
use crate::words::{Word, Words};
use basic_tree::{Keyword, Operator, Relation, Sign};

/// A prefix: what may come before an operand.
#[derive(Clone, Copy, PartialEq, Eq)]
pub enum Prefix {
    Minus,
    Plus,
    Not,
}

fn is_sign(word: Word<'_>, sign: Sign) -> bool
    ensures { result ≡ is_sign sign (as_word word.entry) }
{
    match word {
        Word::Punctuation(found) => sign == found,
        _ => false,
    }
}

fn is_key(word: Word<'_>, key: Keyword) -> bool
    ensures { result ≡ is_key key (as_word word.entry) }
{
    match word {
        Word::Key(found) => key == found,
        _ => false,
    }
}

/// Returns whether this sign is at a place.
#[tactic(auto, using(crate::proofs::WordTests::is_that_sign))]
pub fn next_is_sign(words: &Words<'_>, place: usize, sign: Sign) -> bool
    requires { place ≤ length words.now }
    ensures stands { MatchBool result (WordStands words.now (Punctuation sign) place)
        (First (is_sign sign) (drop place words.now)) }
    ensures few { length words.now ≤ most_words }
{
    match words.peek(place) {
        None => false,
        Some(word) => is_sign(word, sign),
    }
}

/// Returns whether this keyword is at a place.
pub fn next_is_key(words: &Words<'_>, place: usize, key: Keyword) -> bool
    requires { place ≤ length words.now }
    ensures stands { MatchBool result (WordStands words.now (KeyWord key) place)
        (First (is_key key) (drop place words.now)) }
    ensures few { length words.now ≤ most_words }
{
    match words.peek(place) {
        None => false,
        Some(word) => is_key(word, key),
    }
}

/// Returns the place after this sign, which has to be there.
pub fn expect(words: &Words<'_>, place: usize, sign: Sign) -> Result<usize, Failure>
    requires { place ≤ length words.now }
    ensures { ReadsSign words.now sign place result }
{
    if next_is_sign(words, place, sign) {
        Ok(place + 1)
    } else {
        Err(Failure::Wrong { place })
    }
}

fn operator_of(word: Word<'_>) -> Option<Operator>
    ensures { result ≡ operator_of (as_word word.entry) }
{
    match word {
        Word::Punctuation(sign) => sign_operator(sign),
        Word::Key(key) => key_operator(key),
        _ => None,
    }
}

fn relation_of(word: Word<'_>) -> Option<Relation>
    ensures { result ≡ relation_of (as_word word.entry) }
{
    match word {
        Word::Punctuation(sign) => sign_relation(sign),
        _ => None,
    }
}

/// Returns whether an operator has this precedence, and may follow a string, or else a number.
fn goes_on(operator: Operator, precedence: Precedence, text: bool) -> bool
    ensures { result ≡ goes_on operator (level_number precedence) text }
{
    precedence_of(operator) == precedence && (!text || joins_texts(operator))
}

/// Returns the operator at a place, if it has this precedence and may follow a string, or else a
/// number.
pub(crate) fn next_operator(
    words: &Words<'_>,
    place: usize,
    precedence: Precedence,
    text: bool,
) -> Option<Operator>
    requires { place ≤ length words.now }
    ensures operator { OperatorAt words.now place (level_number precedence) text result }
    ensures few { length words.now ≤ most_words }
{
    match words.peek(place) {
        None => None,
        Some(word) => match operator_of(word) {
            None => None,
            Some(operator) => if goes_on(operator, precedence, text) {
                Some(operator)
            } else {
                None
            },
        },
    }
}

/// Returns the relation at a place, if there is one.
pub(crate) fn next_relation(words: &Words<'_>, place: usize) -> Option<Relation>
    requires { place ≤ length words.now }
    ensures relation { RelationAt words.now place result }
    ensures few { length words.now ≤ most_words }
{
    match words.peek(place) {
        None => None,
        Some(word) => relation_of(word),
    }
}

/// Returns the sign before a number at a place, if there is one.
pub(crate) fn next_sign(words: &Words<'_>, place: usize) -> Option<Prefix>
    requires { place ≤ length words.now }
    ensures signed { PrefixAt takes_number (signed_level 2) (Level 2 Number) (signed_level 1)
        words.now place result }
    ensures exponent { PrefixAt always exponents Exponent number_atom words.now place result }
    ensures few { length words.now ≤ most_words }
{
    if next_is_sign(words, place, Sign::Minus) {
        Some(Prefix::Minus)
    } else if next_is_sign(words, place, Sign::Plus) {
        Some(Prefix::Plus)
    } else {
        None
    }
}

/// Returns NOT, if it is at a place.
fn next_not(words: &Words<'_>, place: usize) -> Option<Prefix>
    requires { place ≤ length words.now }
    ensures prefix { PrefixAt takes_number (signed_level 6) (Level 6 Number) (signed_level 5)
        words.now place result }
    ensures few { length words.now ≤ most_words }
{
    if next_is_key(words, place, Keyword::Not) {
        Some(Prefix::Not)
    } else {
        None
    }
}

/// Returns the prefix of this precedence, a sign or NOT, if it is at the place.
pub(crate) fn next_prefix(words: &Words<'_>, place: usize, precedence: Precedence) -> Option<Prefix>
    requires within { place ≤ length words.now }
    requires prefixed { is_prefixed precedence ≡ true }
    ensures prefix { PrefixAt takes_number (signed_level (level_number precedence))
        (Level (level_number precedence) Number) (signed_level (level_number precedence - 1))
        words.now place result }
    ensures few { length words.now ≤ most_words }
{
    match precedence {
        Precedence::Sign => next_sign(words, place),
        _ => next_not(words, place),
    }
}

/// Returns whether a value may begin with this keyword: NOT, or a function.
#[tactic(auto, using(crate::proofs::WordTests::not_or_function))]
fn key_begins(key: Keyword) -> bool
    ensures { result ≡ key_begins key }
{
    key == Keyword::Not || is_function(key)
}

fn is_function(key: Keyword) -> bool
    ensures { result ≡ is_known (function_of key) }
{
    match function_of(key) {
        None => false,
        Some(_) => true,
    }
}

fn sign_begins(sign: Sign) -> bool
    ensures { result ≡ begins_value (Punctuation sign) }
{
    match sign {
        Sign::Opening | Sign::Plus | Sign::Minus => true,
        _ => false,
    }
}

/// Returns whether an expression may begin with this word.
pub fn begins_value(word: Word<'_>) -> bool
    ensures { result ≡ begins_value (as_word word.entry) }
{
    match word {
        Word::Number(value) => value < 32768,
        Word::Quotation(_) => true,
        Word::Named(_) => true,
        Word::FnNamed(_) => true,
        Word::Punctuation(sign) => sign_begins(sign),
        Word::Key(key) => key_begins(key),
        Word::Item(_) => false,
    }
}
