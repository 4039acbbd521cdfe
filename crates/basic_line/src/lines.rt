//! Lines: their statements, one after another.

ghost use Rattle.std.specs.Prelude.{◌≤◌, length};
ghost use Rattle.basic_line.specs.Parsing.{MustRead, MustRefuse, Parses, Reads};
ghost use Rattle.basic_line.specs.Structure.{SentenceAt, StatesAll, StatesOne, StatesPlace};

use crate::choices::{if_at, simple_at};
use crate::sentences::{Class, class_at};
use basic_expr::{Failure, MOST_LEVELS, Words, next_is_sign};
use basic_scanner::{Tokens, scan};
use basic_stmt::plain_at;
use basic_tree::{Line, Refusal, Sign, Statement};
use basic_values::{LINE_LENGTH, Trouble};
use statement_parts::Read;
use std::alloc::Global;

/// Reads a statement of a class, from a place of the line on.
#[tactic(auto, using(crate::proofs::ParsedLines::statements))]
fn statement_at(
    alloc: Global,
    words: &Words<'_>,
    from: usize,
    class: Class,
) -> Result<Read<Statement>, Failure>
    requires within { from ≤ length words.now }
    requires sentence { SentenceAt words.now from class }
    ensures { StatesOne words.now from result }
{
    match class {
        Class::Choice => {
            let found = if_at(alloc, words, from, MOST_LEVELS)?;
            Ok(Read {
                value: found.statement,
                end: found.end,
            })
        }
        Class::Head => plain_at(alloc, words, from, MOST_LEVELS),
        Class::Simple => simple_at(alloc, words, from, MOST_LEVELS),
    }
}

/// Adds what is at a place of the line between separators, a statement or nothing, and returns the
/// place after it.
#[tactic(auto, using(crate::proofs::ParsedLines::places))]
fn add_statement(
    alloc: Global,
    words: &Words<'_>,
    from: usize,
    statements: &mut Vec<Statement>,
) -> Result<usize, Failure>
    requires { from ≤ length words.now }
    ensures { StatesPlace words.now from statements.old.items statements.new.items result }
{
    match class_at(words, from) {
        None => Ok(from),
        Some(class) => {
            let Read {
                value: statement,
                end,
            } = statement_at(alloc, words, from, class)?;
            statements.push(statement)?;
            Ok(end)
        }
    }
}

/// Reads the statements between the separators.
#[tactic(auto, using(crate::proofs::ParsedLines::so_far))]
fn all_statements(alloc: Global, words: &Words<'_>) -> Result<Read<Vec<Statement>>, Failure>
    ensures { StatesAll words.now result }
{
    let mut statements = Vec::new(alloc);
    let mut place = add_statement(alloc, words, 0, &mut statements)?;
    'others: while next_is_sign(words, place, Sign::Colon) {
        place = add_statement(alloc, words, place + 1, &mut statements)?;
    }
    Ok(Read {
        value: statements,
        end: place,
    })
}

/// Returns the line that the tokens spell: its statements, separated by `:` or `\`. Between two
/// separators there may be none.
///
/// If the tokens spell no line, returns the leftmost of these: the first token that no line can
/// have there, and the token that opens nesting level 65.
#[tactic(auto, using(crate::proofs::ParsedLines::lines))]
pub fn parse_line(alloc: Global, tokens: &Tokens<'_>) -> Result<Line, Trouble<Refusal>>
    ensures exact { Parses tokens.now result }
{
    let words = Words::of(alloc, tokens)?;
    let count = words.len();
    match all_statements(alloc, &words) {
        Ok(
            Read {
                value: statements,
                end: place,
            },
        ) => if place == count {
            Ok(Line { statements })
        } else {
            Err(Failure::Wrong { place }.trouble())
        },
        Err(failure) => Err(failure.trouble()),
    }
}

/// Returns the line that the bytes spell, by `scan`, and `parse_line` over its tokens. A line has
/// at most 255 bytes.
///
/// If they spell none, returns the first byte that begins no token. If all bytes are tokens,
/// returns the first token that is rejected.
#[tactic(auto, using(crate::proofs::ReadLines::reads))]
pub fn read_line(alloc: Global, line: &[u8]) -> Result<Line, Trouble<Refusal>>
    requires { length line.now ≤ LINE_LENGTH }
    ensures exact { Reads line.now result }
    // Unless memory runs out, bytes that spell a line are read, and all others are rejected as the
    // grammar says.
    ensures must_read { MustRead line.now result }
    ensures must_refuse { MustRefuse line.now result }
{
    match scan(line) {
        Ok(tokens) => parse_line(alloc, &tokens),
        Err(refusal) => Err(Trouble::Refused(refusal)),
    }
}
