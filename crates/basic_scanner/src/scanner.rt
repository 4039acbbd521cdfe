//! The tokens of a line. They are in the value itself: a line of 255 bytes has no more tokens.

ghost use Rattle.std.specs.Prelude.{◌≡◌, ◌≤◌, ◌<◌, ◌+◌, ◌^◌, ◌++◌, ◌∷◌, [], take, drop, length};
ghost use Rattle.std.specs.Prelude.{slice_get, None, Some, Ok, Err, IfOk, IfErr};
ghost use Rattle.arrayvec.specs.ArrayVec.{array_vec_len};
ghost use Rattle.basic_tree.specs.Tokens.{quote_after, cuts, tokens_of, front_of};
ghost use Rattle.basic_tree.specs.TokenLaws.{LiesIn, AreCut};
ghost use Rattle.basic_scanner.specs.Lexemes.{lexeme_of, lexemes};
ghost use Rattle.basic_scanner.specs.Scan.{Appended, item_and_more, items_at, token_at};

use crate::front::{front_of, is_quote};
use arrayvec::ArrayVec;
use basic_tree::{Front, Refusal, TokenKind};
use basic_values::LINE_LENGTH;
use std::marker::Model;

/// A token: its kind, the place of its first byte in the line, and its bytes, a slice of the line.
#[derive(Clone, Copy)]
pub struct Token<'a> {
    pub kind: TokenKind,
    pub start: u16,
    pub bytes: &'a [u8],
}

/// A token without bytes, for the unused places.
impl<'a> Default for Token<'a> {
    fn default() -> Token<'a> {
        Token {
            kind: TokenKind::Sign,
            start: 0,
            bytes: &[],
        }
    }
}

/// The tokens of a line, at most one for each byte.
#[derive(Drop)]
pub struct Tokens<'a> {
    tokens: ArrayVec<Token<'a>, LINE_LENGTH>,
}

impl<'a> Model for Tokens<'a> {
    ghost use Rattle.std.specs.Prelude.{List};
    ghost use Rattle.basic_tree.specs.Tokens.{Lexeme};

    ghost Value = { List Lexeme };

    ghost use Rattle.basic_scanner.specs.Lexemes.{lexemes, AreShort};

    ghost view = { λ all. lexemes all.tokens.items };

    ghost invariant = { λ all. AreShort (lexemes all.tokens.items) };
}

impl<'a> Tokens<'a> {
    /// Returns the number of tokens.
    pub fn len(&self) -> u16
        ensures value { result ≡ length self.now }
        ensures few { result ≤ LINE_LENGTH }
    {
        self.tokens.len() as u16
    }

    /// Returns the token at a place, from 0.
    pub fn token(&self, k: u16) -> Token<'a>
        requires { k < length self.now }
        ensures value { slice_get self.now k ≡ Some (lexeme_of result) }
        ensures short { length result.bytes.now ≤ LINE_LENGTH }
    {
        self.tokens[k as usize]
    }
}

/// Returns the quote that is open after a byte.
fn quote_after(quote: Option<u8>, byte: u8) -> Option<u8>
    ensures { result ≡ quote_after quote byte }
{
    match quote {
        None => { if is_quote(byte) { Some(byte) } else { None } }
        Some(open) => { if byte == open { None } else { Some(open) } }
    }
}

/// Returns whether the byte ends an item: a comma outside quotes does.
fn cuts(quote: Option<u8>, byte: u8) -> bool
    ensures { result ≡ cuts quote byte }
{
    match quote {
        None => byte == b',',
        Some(_) => false,
    }
}

/// Returns the end of the item of DATA that begins at a place.
#[tactic(auto, using(crate::proofs::ItemLemmas::item_steps))]
fn item_end(line: &[u8], start: usize) -> usize
    requires { start ≤ length line.now }
    ensures within { (start ≤ result) × (result ≤ length line.now) }
    ensures value { items_at start line.now ≡ item_and_more start result line.now }
{
    let mut quote = None;
    for place in start..line.len() {
        if cuts(quote, line[place]) {
            return place;
        }
        quote = quote_after(quote, line[place]);
    }
    line.len()
}

/// Adds a token with this many bytes of the line, from its start on.
fn push<'a>(
    tokens: &mut ArrayVec<Token<'a>, LINE_LENGTH>,
    kind: TokenKind,
    line: &'a [u8],
    start: usize,
    len: usize,
)
    requires within { start + len ≤ length line.now }
    requires short { length line.now ≤ LINE_LENGTH }
    requires room { array_vec_len tokens.now < LINE_LENGTH }
    ensures tokens { let one = token_at kind start len line.entry.now in
        Appended tokens.old.items tokens.new.items (one ∷ []) }
    ensures count { array_vec_len tokens.new ≡ array_vec_len tokens.old + 1 }
{
    tokens.push(Token {
        kind,
        start: start as u16,
        bytes: &line[start..start + len],
    });
}

/// Adds the items of DATA, from a place to the end of the line.
fn push_items<'a>(tokens: &mut ArrayVec<Token<'a>, LINE_LENGTH>, line: &'a [u8], from: usize)
    requires within { from ≤ length line.now }
    requires short { length line.now ≤ LINE_LENGTH }
    requires room { array_vec_len tokens.now < from }
    ensures { Appended tokens.old.items tokens.new.items (items_at from line.entry.now) }
{
    let mut start = from;
    'items: loop {
        let end = item_end(line, start);
        push(tokens, TokenKind::DataItem, line, start, end - start);
        if end == line.len() {
            return;
        }
        start = end + 1;
    }
}

/// Returns what the line has at a place.
fn front_at(line: &[u8], place: usize) -> Front
    requires { place < length line.now }
    ensures value { front_of (drop place line.now) ≡ result }
    ensures fits { LiesIn result (drop place line.now) }
{
    front_of(&line[place..])
}

/// Returns the tokens of the line, or the first place that is rejected.
fn read<'a>(line: &'a [u8]) -> Result<ArrayVec<Token<'a>, LINE_LENGTH>, Refusal>
    requires { length line.now ≤ LINE_LENGTH }
    ensures found { IfOk result (λ tokens. tokens_of line.entry.now ≡ Ok (lexemes tokens.items)) }
    ensures refused { IfErr result (λ refusal. tokens_of line.entry.now ≡ Err refusal) }
{
    let mut tokens = ArrayVec::new();
    let mut place = 0;
    while place < line.len() {
        match front_at(line, place) {
            Front::Blank => place += 1,
            Front::Comment => return Ok(tokens),
            Front::Data => {
                push(&mut tokens, TokenKind::Keyword, line, place, 4);
                push_items(&mut tokens, line, place + 4);
                return Ok(tokens);
            }
            Front::Token(kind, len) => {
                push(&mut tokens, kind, line, place, len);
                place += len;
            }
            Front::Refused(cause) => {
                return Err(Refusal {
                    place: place as u16,
                    cause,
                });
            }
        }
    }
    Ok(tokens)
}

/// Returns the tokens of the line, or the first place that is rejected and why. It takes no memory.
pub fn scan<'a>(line: &'a [u8]) -> Result<Tokens<'a>, Refusal>
    requires { length line.now ≤ LINE_LENGTH }
    ensures exact { result ≡ tokens_of line.entry.now }
    ensures slices { IfOk result (λ tokens. AreCut line.entry.now 0 tokens) }
{
    match read(line) {
        Ok(tokens) => Ok(Tokens { tokens }),
        Err(refusal) => Err(refusal),
    }
}
