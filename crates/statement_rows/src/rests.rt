//! Statements whose second word decides what follows: ON, DIM, INPUT and MAT.

ghost use Rattle.std.specs.Prelude.{◌≡◌, ℕ, ◌+◌, ◌<◌, ◌≤◌, length};
ghost use Rattle.grammar_machine.specs.MachineSentences.{dim_form, input_form, mat_form, on_form};
ghost use Rattle.basic_tree.specs.StatementViews.{statement_of};
ghost use Rattle.statement_parts.specs.ParsedForms.{States, StatesFrom};
ghost use Rattle.statement_rows.specs.Rests.{on_lines, rest_built, rest_form, rest_row};
ghost use Rattle.statement_rows.specs.Slots.{slots_of};
ghost use Rattle.basic_tree.specs.TreeViews.{tree_of};

use crate::piece::Piece;
use crate::reader::row;
use crate::slots::{Slots, next_option, next_value, taken};
use basic_expr::{Failure, Words};
use basic_tree::{Expr, Keyword, MatrixValue, Series, Sign, Statement, Want};
use statement_parts::{Read, if_key, if_sign, take_key};
use std::alloc::Global;
use std::mem;

/// What follows the words that were read.
#[derive(Clone, Copy, PartialEq, Eq)]
pub enum Rest {
    /// After ON ERROR.
    OnError,
    /// After any other ON.
    OnLines,
    /// After the `#` of a DIM.
    DimFile,
    /// After any other DIM.
    DimArrays,
    /// After INPUT LINE.
    InputLine,
    /// After any other INPUT.
    InputTargets,
    /// After MAT READ.
    MatRead,
    /// After MAT PRINT.
    MatPrint,
    /// After any other MAT.
    MatLet,
}

/// Returns the table entry of such a rest.
fn rest_row(rest: Rest) -> &'static [Piece]
    ensures { result.now ≡ rest_row rest }
{
    match rest {
        Rest::OnError => &[Piece::Key(Keyword::Goto), Piece::PerhapsLine],
        Rest::OnLines => &[
            Piece::Value(Want::Number),
            Piece::Either(Keyword::Goto, Keyword::Gosub),
            Piece::Lines,
        ],
        Rest::DimFile => &[Piece::Bound, Piece::Sign(Sign::Comma), Piece::FileShapes],
        Rest::DimArrays => &[Piece::Shapes],
        Rest::InputLine => &[Piece::PerhapsChannel, Piece::Variable(Want::Text)],
        Rest::InputTargets => &[Piece::Source, Piece::Targets],
        Rest::MatRead => &[Piece::Arrays],
        Rest::MatPrint => &[Piece::Variable(Want::Number), Piece::PerhapsSeparator],
        Rest::MatLet => &[
            Piece::Variable(Want::Number),
            Piece::Sign(Sign::Equal),
            Piece::Matrix,
        ],
    }
}

/// Builds ON .. GOTO or ON .. GOSUB.
fn on_lines(goto: bool, selector: Expr, lines: Series<u16>) -> Statement
    ensures { statement_of result ≡ on_lines goto (tree_of selector) lines }
{
    if goto {
        Statement::OnGoto { selector, lines }
    } else {
        Statement::OnGosub { selector, lines }
    }
}

/// Builds the statement of such a rest from what was read of it.
fn build(alloc: Global, rest: Rest, mut slots: Slots) -> Statement
    ensures { statement_of result ≡ rest_built rest (slots_of slots) }
{
    match rest {
        Rest::OnError => Statement::OnErrorGoto(slots.perhaps_line),
        Rest::OnLines => on_lines(
            slots.mark,
            next_value(&mut slots.values),
            taken(alloc, &mut slots.lines),
        ),
        Rest::DimFile => Statement::DimFile {
            channel: slots.number,
            shapes: taken(alloc, &mut slots.file_shapes),
        },
        Rest::DimArrays => Statement::Dim(taken(alloc, &mut slots.shapes)),
        Rest::InputLine => Statement::InputLine {
            channel: next_option(&mut slots.options),
            variable: slots.variable,
        },
        Rest::InputTargets => Statement::Input {
            channel: next_option(&mut slots.options),
            prompt: slots.prompt.take(),
            targets: taken(alloc, &mut slots.targets),
        },
        Rest::MatRead => Statement::MatRead(taken(alloc, &mut slots.arrays)),
        Rest::MatPrint => Statement::MatPrint {
            matrix: slots.variable,
            separator: slots.separator,
        },
        Rest::MatLet => Statement::MatLet {
            target: slots.variable,
            value: mem::replace(&mut slots.matrix, MatrixValue::Zero),
        },
    }
}

/// Reads such a rest, and returns its statement.
#[tactic(auto, using(crate::proofs::RowSteps::making))]
fn stated(
    alloc: Global,
    words: &Words<'_>,
    from: usize,
    rest: Rest,
    levels: usize,
) -> Result<Read<Statement>, Failure>
    requires { from ≤ length words.now }
    ensures { StatesFrom levels words.now from (rest_form rest) result }
{
    let Read { value: slots, end } = row(alloc, words, from, rest_row(rest), levels)?;
    Ok(Read {
        value: build(alloc, rest, slots),
        end,
    })
}

/// Reads ON ERROR GOTO; or ON, a selector, GOTO or GOSUB, and the lines.
#[tactic(auto)]
pub fn on(
    alloc: Global,
    words: &Words<'_>,
    from: usize,
    levels: usize,
) -> Result<Read<Statement>, Failure>
    requires { from ≤ length words.now }
    ensures { States levels words.now from on_form result }
{
    let at = take_key(words, from, Keyword::On)?;
    if if_key(words, at, Keyword::Error) {
        return stated(alloc, words, at + 1, Rest::OnError, levels);
    }
    stated(alloc, words, at, Rest::OnLines, levels)
}

/// Reads DIM and its arrays, which may be in the file of a channel.
#[tactic(auto)]
pub fn dim(
    alloc: Global,
    words: &Words<'_>,
    from: usize,
    levels: usize,
) -> Result<Read<Statement>, Failure>
    requires { from ≤ length words.now }
    ensures { States levels words.now from dim_form result }
{
    let at = take_key(words, from, Keyword::Dim)?;
    if if_sign(words, at, Sign::Hash) {
        return stated(alloc, words, at + 1, Rest::DimFile, levels);
    }
    stated(alloc, words, at, Rest::DimArrays, levels)
}

/// Reads INPUT: LINE and a variable, or an optional channel or prompt, and the targets.
#[tactic(auto)]
pub fn input(
    alloc: Global,
    words: &Words<'_>,
    from: usize,
    levels: usize,
) -> Result<Read<Statement>, Failure>
    requires { from ≤ length words.now }
    ensures { States levels words.now from input_form result }
{
    let at = take_key(words, from, Keyword::Input)?;
    if if_key(words, at, Keyword::Line) {
        return stated(alloc, words, at + 1, Rest::InputLine, levels);
    }
    stated(alloc, words, at, Rest::InputTargets, levels)
}

/// Reads MAT: READ and arrays, PRINT and one array, or an array, `=` and its value.
#[tactic(auto)]
pub fn mat(
    alloc: Global,
    words: &Words<'_>,
    from: usize,
    levels: usize,
) -> Result<Read<Statement>, Failure>
    requires { from ≤ length words.now }
    ensures { States levels words.now from mat_form result }
{
    let at = take_key(words, from, Keyword::Mat)?;
    if if_key(words, at, Keyword::Read) {
        return stated(alloc, words, at + 1, Rest::MatRead, levels);
    }
    if if_key(words, at, Keyword::Print) {
        return stated(alloc, words, at + 1, Rest::MatPrint, levels);
    }
    stated(alloc, words, at, Rest::MatLet, levels)
}
