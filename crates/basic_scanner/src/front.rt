//! What the rest of a line begins with.

ghost use Rattle.std.specs.Prelude.{◌≡◌, ◌≤◌, ◌<◌, ◌==◌, IfSome, position, min, take, length};
ghost use Rattle.std.specs.Prelude.{slice_index};
ghost use Rattle.std.specs.Char.{is_ascii_digit};
ghost use Rattle.std.specs.List.{prefix_len};
ghost use Rattle.std.specs.Str.Parse.{AllDigits, digits_value};
ghost use Rattle.basic_tree.specs.Tokens.{is_quote, is_type_mark, keyword_front, name_end};
ghost use Rattle.basic_tree.specs.Tokens.{name_front, begins_function, letter_front, has_exponent};
ghost use Rattle.basic_tree.specs.Tokens.{is_floating, digit_front, quote_front, sign_front};
ghost use Rattle.basic_tree.specs.Tokens.{front_of};
ghost use Rattle.basic_scanner.specs.Scan.{value_in_front};

use crate::words::{is_at_front, is_word, keyword_length, sign_length};
use basic_tree::{Cause, Front, TokenKind};
use basic_values::{digits_in_front, is_blank};

/// The least number that is too large for a literal.
const TOO_WIDE: u32 = 32768;

/// Returns the byte at a place, or 0 past the end.
fn byte_at(rest: &[u8], place: usize) -> u8
    ensures { result ≡ slice_index rest.now place }
{
    rest.get(place).copied().unwrap_or(0)
}

pub fn is_quote(byte: u8) -> bool
    ensures { result ≡ is_quote byte }
{
    byte == b'"' || byte == b'\''
}

fn is_type_mark(byte: u8) -> bool
    ensures { result ≡ is_type_mark byte }
{
    byte == b'%' || byte == b'$'
}

/// Returns what a keyword is: REM begins a comment, DATA its items, and every other keyword is a
/// token.
fn keyword_front(word: &[u8]) -> Front
    ensures { result ≡ keyword_front word.now }
{
    if is_word(b"REM", word) {
        Front::Comment
    } else if is_word(b"DATA", word) {
        Front::Data
    } else {
        Front::Token(TokenKind::Keyword, word.len())
    }
}

/// Returns the place after a name whose letter is at this place.
fn name_end(letter: usize, rest: &[u8]) -> usize
    requires { letter < 3 }
    ensures value { result ≡ name_end letter rest.now }
    ensures small { result < 6 }
{
    if byte_at(rest, letter + 1).is_ascii_digit() {
        letter + 2
    } else {
        letter + 1
    }
}

/// Returns the name that ends there, if `%` or `$` follows at once.
fn name_front(kind: TokenKind, end: usize, rest: &[u8]) -> Front
    requires { end < 6 }
    ensures { result ≡ name_front kind end rest.now }
{
    if is_type_mark(byte_at(rest, end)) {
        Front::Token(kind, end + 1)
    } else {
        Front::Refused(Cause::FloatingName)
    }
}

/// Returns whether the rest begins with FN and a letter.
fn begins_function(rest: &[u8]) -> bool
    ensures { result ≡ begins_function rest.now }
{
    is_at_front(b"FN", rest) && byte_at(rest, 2).is_ascii_alphabetic()
}

/// Returns the longest keyword, or else a name.
fn letter_front(rest: &[u8]) -> Front
    ensures { result ≡ letter_front rest.now }
{
    let len = keyword_length(rest);
    if len > 0 {
        keyword_front(&rest[..len])
    } else if begins_function(rest) {
        name_front(TokenKind::FnName, name_end(2, rest), rest)
    } else {
        name_front(TokenKind::Variable, name_end(0, rest), rest)
    }
}

/// Returns whether an exponent follows the digits: E and a digit, or E, a sign and a digit.
fn has_exponent(behind: &[u8]) -> bool
    ensures { result ≡ has_exponent behind.now }
{
    let sign = byte_at(behind, 1);
    sign.is_ascii_digit() || ((sign == b'+' || sign == b'-') && byte_at(behind, 2).is_ascii_digit())
}

/// Returns whether what follows the digits makes a floating number of them.
fn is_floating(behind: &[u8]) -> bool
    ensures { result ≡ is_floating behind.now }
{
    let next = byte_at(behind, 0);
    next == b'.' || (next.to_ascii_uppercase() == b'E' && has_exponent(behind))
}

/// Returns the number of leading digits.
fn digits_length(rest: &[u8]) -> usize
    ensures value { result ≡ prefix_len is_ascii_digit rest.now }
    ensures within { result ≤ length rest.now }
    ensures digits { AllDigits 10 (take result rest.now) }
{
    digits_in_front(rest)
}

/// Returns the value of the digits, or the least value that is too large.
fn capped_value(digits: &[u8]) -> u32
    requires { AllDigits 10 digits.now }
    ensures { result ≡ min (digits_value 10 digits.now) TOO_WIDE }
{
    let mut value: u32 = 0;
    for digit in digits {
        value = (value * 10 + u32::from(*digit - b'0')).min(TOO_WIDE);
    }
    value
}

/// Returns the value of the leading digits, or 32768 for any above 32767.
pub fn literal_value(bytes: &[u8]) -> u16
    ensures { result ≡ value_in_front bytes.now }
{
    capped_value(&bytes[..digits_length(bytes)]) as u16
}

/// Returns the digits as a literal, with a `%` right after them.
fn digit_front(rest: &[u8]) -> Front
    ensures { result ≡ digit_front rest.now }
{
    let len = digits_length(rest);
    if is_floating(&rest[len..]) {
        Front::Refused(Cause::FloatingLiteral)
    } else if capped_value(&rest[..len]) == TOO_WIDE {
        Front::Refused(Cause::NumberTooWide)
    } else if byte_at(rest, len) == b'%' {
        Front::Token(TokenKind::Literal, len + 1)
    } else {
        Front::Token(TokenKind::Literal, len)
    }
}

/// Returns the place of the closing quote in the bytes after the opening one.
fn closing_place(quote: u8, behind: &[u8]) -> Option<usize>
    ensures value { result ≡ position (λ b. b == quote) behind.now }
    ensures within { IfSome result (λ place. place < length behind.now) }
{
    behind.iter().position(|byte| *byte == quote)
}

/// Returns everything up to the next quote of the same kind.
#[tactic(auto, unfolding(basic_tree::specs::Tokens::quote_front))]
fn quote_front(rest: &[u8]) -> Front
    requires { 0 < length rest.now }
    ensures { result ≡ quote_front rest.now }
{
    match closing_place(rest[0], &rest[1..]) {
        Some(inside) => Front::Token(TokenKind::Quoted, inside + 2),
        None => Front::Refused(Cause::OpenString),
    }
}

/// Returns the longest sign.
#[tactic(auto, unfolding(basic_tree::specs::Tokens::sign_front))]
fn sign_front(rest: &[u8]) -> Front
    ensures { result ≡ sign_front rest.now }
{
    let len = sign_length(rest);
    if len > 0 {
        Front::Token(TokenKind::Sign, len)
    } else {
        Front::Refused(Cause::StrayByte)
    }
}

/// Returns what the rest begins with, by its first byte.
#[tactic(auto, unfolding(basic_tree::specs::Tokens::front_of))]
pub fn front_of(rest: &[u8]) -> Front
    requires { 0 < length rest.now }
    ensures { result ≡ front_of rest.now }
{
    let first = rest[0];
    if is_blank(first) {
        Front::Blank
    } else if first.is_ascii_alphabetic() {
        letter_front(rest)
    } else if first.is_ascii_digit() {
        digit_front(rest)
    } else if is_quote(first) {
        quote_front(rest)
    } else if first == b'!' {
        Front::Comment
    } else {
        sign_front(rest)
    }
}
