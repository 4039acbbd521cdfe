//! The words of a line, as the grammar sees them.

ghost use Rattle.std.specs.Prelude.{◌≡◌, ◌+◌, ◌-◌, ◌<◌, ◌≤◌, ◌==◌, ◌∷◌, [], length, map, drop};
ghost use Rattle.std.specs.Prelude.{take, slice_index, MatchOption, IfOk, OnOk};
ghost use Rattle.basic_tree.specs.SpellingWords.{one_sign, name_of, key_or_item, sign_or_item};
ghost use Rattle.basic_tree.specs.SpellingWords.{word_with, words_of};
ghost use Rattle.basic_tree.specs.Tokens.{keyword_of, sign_of};
ghost use Rattle.basic_expr.specs.Views.{as_word, IsShort, most_words};

use basic_scanner::{Token, Tokens, keyword_of, literal_value, sign_of};
use basic_tree::{Keyword, Name, Sign, TokenKind};
use basic_values::{LINE_LENGTH, NoMemory, Text, Trouble};
use std::alloc::Global;
use std::marker::Model;

/// A token as the grammar sees it: letters as capitals, a literal by its value (32768 for any above
/// 32767), and one word for two spellings.
#[derive(Clone, Copy)]
pub enum Word<'a> {
    Key(Keyword),
    Punctuation(Sign),
    /// The name of a variable or an array.
    Named(Name),
    /// The name of a function of the program.
    FnNamed(Name),
    Number(u16),
    /// The bytes between the quotes.
    Quotation(&'a [u8]),
    /// An item of DATA.
    Item(&'a [u8]),
}

/// The words of a line; contracts see them as the list of the grammar's words.
#[derive(Drop)]
pub struct Words<'a> {
    words: Vec<Word<'a>>,
}

impl<'a> Model for Words<'a> {
    ghost use Rattle.std.specs.Prelude.{List, ◌≤◌, All, vec_len};
    ghost use Rattle.basic_tree.specs.SpellingWords as spelling;

    ghost Value = { List spelling.Word };

    ghost use Rattle.basic_expr.specs.Views.{as_words, IsShort, most_words};

    ghost view = { λ line. as_words line.words.items };

    ghost invariant = { λ line. (vec_len line.words ≤ most_words) × All IsShort line.words.items };
}

/// Returns the byte at a place, or 0 past the end.
fn byte_at(bytes: &[u8], place: usize) -> u8
    ensures { result ≡ slice_index bytes.now place }
{
    bytes.get(place).copied().unwrap_or(0)
}

/// Returns the bytes after this many.
fn behind(count: usize, bytes: &[u8]) -> &[u8]
    ensures { result.now ≡ drop count bytes.entry.now }
{
    &bytes[count.min(bytes.len())..]
}

/// Returns one sign for two spellings: `**` is `^`, and `\` is `:`.
fn one_sign(sign: Sign) -> Sign
    ensures { result ≡ one_sign sign }
{
    match sign {
        Sign::DoubleStar => Sign::Caret,
        Sign::Backslash => Sign::Colon,
        other => other,
    }
}

/// Returns the digit after the letter of a name, if there is one.
fn digit_of(bytes: &[u8]) -> Option<u8>
    ensures { result ≡ (name_of bytes.now).digit }
{
    let second = byte_at(bytes, 1);
    if second.is_ascii_digit() {
        Some(second)
    } else {
        None
    }
}

/// Returns the name that the bytes spell: a letter, perhaps a digit, and `%` or `$`.
fn name_of(bytes: &[u8]) -> Name
    ensures { result ≡ name_of bytes.now }
{
    Name {
        letter: byte_at(bytes, 0).to_ascii_uppercase(),
        digit: digit_of(bytes),
        text: byte_at(bytes, bytes.len().saturating_sub(1)) == b'$',
    }
}

/// Returns a copy of bytes of a line.
pub fn text_of(alloc: Global, bytes: &[u8]) -> Result<Text, NoMemory>
    requires { length bytes.now ≤ LINE_LENGTH }
    ensures { IfOk result (λ text. text ≡ bytes.now) }
{
    match Text::of(alloc, bytes) {
        Ok(text) => Ok(text),
        Err(Trouble::Refused(_)) => unreachable!(),
        Err(Trouble::NoMemory) => Err(NoMemory),
    }
}

/// Returns the keyword that the bytes spell, or else an item.
fn key_or_item(bytes: &[u8]) -> Word<'_>
    requires { length bytes.now ≤ LINE_LENGTH }
    ensures word { as_word result ≡ key_or_item bytes.entry.now (keyword_of bytes.entry.now) }
    ensures short { IsShort result }
{
    match keyword_of(bytes) {
        Some(keyword) => Word::Key(keyword),
        None => Word::Item(bytes),
    }
}

/// Returns the sign that the bytes spell, or else an item.
fn sign_or_item(bytes: &[u8]) -> Word<'_>
    requires { length bytes.now ≤ LINE_LENGTH }
    ensures word { as_word result ≡ sign_or_item bytes.entry.now (sign_of bytes.entry.now) }
    ensures short { IsShort result }
{
    match sign_of(bytes) {
        Some(sign) => Word::Punctuation(one_sign(sign)),
        None => Word::Item(bytes),
    }
}

/// Returns the bytes without the first and the last.
fn inside(bytes: &[u8]) -> &[u8]
    ensures value { result.now ≡ take (length bytes.entry.now - 2) (drop 1 bytes.entry.now) }
    ensures within { length result.now ≤ length bytes.entry.now }
{
    if bytes.len() < 2 {
        &bytes[..0]
    } else {
        &bytes[1..bytes.len() - 1]
    }
}

/// Returns the word of a token of this kind with these bytes.
fn word_with(kind: TokenKind, bytes: &[u8]) -> Word<'_>
    requires { length bytes.now ≤ LINE_LENGTH }
    ensures word { as_word result ≡ word_with kind bytes.entry.now }
    ensures short { IsShort result }
{
    match kind {
        TokenKind::Keyword => key_or_item(bytes),
        TokenKind::FnName => Word::FnNamed(name_of(behind(2, bytes))),
        TokenKind::Variable => Word::Named(name_of(bytes)),
        TokenKind::Literal => Word::Number(literal_value(bytes)),
        TokenKind::Quoted => Word::Quotation(inside(bytes)),
        TokenKind::DataItem => Word::Item(bytes),
        TokenKind::Sign => sign_or_item(bytes),
    }
}

impl<'a> Words<'a> {
    /// Returns the words of the tokens of a line.
    pub fn of(alloc: Global, tokens: &Tokens<'a>) -> Result<Words<'a>, NoMemory>
        ensures { IfOk result (λ words. words ≡ words_of tokens.now) }
    {
        let mut words = Vec::new(alloc);
        for k in 0..tokens.len() {
            let token = tokens.token(k);
            words.push(word_with(token.kind, token.bytes))?;
        }
        Ok(Words { words })
    }

    /// Returns the number of words.
    pub fn len(&self) -> usize
        ensures count { result ≡ length self.now }
        ensures few { length self.now ≤ most_words }
    {
        self.words.len()
    }

    /// Returns the word at a place, from 0, or `None` at the end.
    pub fn peek(&self, place: usize) -> Option<Word<'a>>
        requires { place ≤ length self.now }
        ensures word { MatchOption result (drop place self.now ≡ []) (λ w.
            (place < length self.now) ×
            (drop place self.now ≡ as_word w ∷ drop (place + 1) self.now) × IsShort w) }
        ensures few { length self.now ≤ most_words }
    {
        self.words.get(place).copied()
    }
}
