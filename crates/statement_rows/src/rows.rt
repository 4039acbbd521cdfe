//! The table entries of statements by their first words, and the statements that are built from
//! them.

ghost use Rattle.std.specs.Prelude.{◌≡◌, ◌≤◌, None, Some, length, map, option_map, MatchOption};
ghost use Rattle.grammar_machine.specs.MachineSentences.{key_sentence};
ghost use Rattle.basic_tree.specs.StatementViews.{statement_of};
ghost use Rattle.basic_tree.specs.TreeViews.{tree_of};
ghost use Rattle.statement_parts.specs.ParsedForms.{States};
ghost use Rattle.statement_parts.specs.Sentences.{StatesAs};
ghost use Rattle.statement_rows.specs.Rows.{built, file_built, gone, opened_of, row_of};
ghost use Rattle.statement_rows.specs.Rows.{statement_form};
ghost use Rattle.statement_rows.specs.Slots.{slots_of};

use crate::piece::Piece;
use crate::reader::row;
use crate::slots::{Slots, next_option, next_value, taken};
use basic_expr::{Failure, Words};
use basic_tree::{Expr, Keyword, OpenFor, Sign, Statement, Want};
use statement_parts::{Read, take_key};
use std::alloc::Global;

/// `OPEN file FOR INPUT AS FILE #channel`, with options.
const OPEN: [Piece; 7] = [
    Piece::Value(Want::Text),
    Piece::Purpose,
    Piece::Key(Keyword::As),
    Piece::Key(Keyword::File),
    Piece::Mark(Sign::Hash),
    Piece::Value(Want::Number),
    Piece::OpenOptions,
];

/// GET and PUT: `#channel`, with an optional RECORD.
const BLOCK: [Piece; 3] = [
    Piece::Sign(Sign::Hash),
    Piece::Value(Want::Number),
    Piece::Option(Keyword::Record),
];

/// `FIELD #channel`, with the fields.
const FIELD: [Piece; 4] = [
    Piece::Sign(Sign::Hash),
    Piece::Value(Want::Number),
    Piece::Sign(Sign::Comma),
    Piece::Fields,
];

/// LSET and RSET: `variable = string`.
const SET: [Piece; 3] = [
    Piece::Variable(Want::Text),
    Piece::Sign(Sign::Equal),
    Piece::Value(Want::Text),
];

/// `NAME old AS new`.
const NAME: [Piece; 3] = [
    Piece::Value(Want::Text),
    Piece::Key(Keyword::As),
    Piece::Value(Want::Text),
];

/// Returns what follows the first word of a statement, if the statement has a table entry.
pub fn row_of(key: Keyword) -> Option<&'static [Piece]>
    ensures { MatchOption result (row_of key ≡ None) (λ row. row_of key ≡ Some row.now) }
{
    let row: &'static [Piece] = match key {
        Keyword::For => &[Piece::Range],
        Keyword::Next => &[Piece::Variable(Want::Number)],
        Keyword::Data => &[Piece::Items],
        Keyword::Let => &[Piece::Assigned],
        Keyword::Read => &[Piece::Targets],
        Keyword::Goto | Keyword::Gosub => &[Piece::Line],
        Keyword::Go => &[Piece::Either(Keyword::To, Keyword::Sub), Piece::Line],
        Keyword::Resume => &[Piece::PerhapsLine],
        Keyword::FnEnd | Keyword::Restore | Keyword::Return | Keyword::Stop | Keyword::End => &[],
        Keyword::Sleep => &[Piece::Value(Want::Number)],
        Keyword::Open => &OPEN,
        Keyword::Close => &[Piece::Channels],
        Keyword::Get | Keyword::Put => &BLOCK,
        Keyword::Unlock => &[Piece::Sign(Sign::Hash), Piece::Value(Want::Number)],
        Keyword::Field => &FIELD,
        Keyword::Lset | Keyword::Rset => &SET,
        Keyword::Kill => &[Piece::Value(Want::Text)],
        Keyword::Name => &NAME,
        _ => return None,
    };
    Some(row)
}

/// Builds the statement of such a word from what was read after it.
// The slots are borrowed: of a function that owns them it is proved in each of these arms that it
// drops them.
fn build(alloc: Global, key: Keyword, slots: &mut Slots) -> Statement
    ensures { statement_of result ≡ built key (slots_of slots.old) }
{
    match key {
        Keyword::For => Statement::For {
            variable: slots.variable,
            from: next_value(&mut slots.values),
            to: next_value(&mut slots.values),
            step: next_option(&mut slots.options),
        },
        Keyword::Next => Statement::Next(slots.variable),
        Keyword::FnEnd => Statement::FnEnd,
        Keyword::Data => Statement::Data(taken(alloc, &mut slots.items)),
        Keyword::Let => Statement::Let {
            word: true,
            targets: taken(alloc, &mut slots.targets),
            value: next_value(&mut slots.values),
        },
        Keyword::Read => Statement::Read(taken(alloc, &mut slots.targets)),
        Keyword::Restore => Statement::Restore,
        Keyword::Goto => Statement::Goto {
            apart: false,
            line: slots.number,
        },
        Keyword::Gosub => Statement::Gosub {
            apart: false,
            line: slots.number,
        },
        Keyword::Go => gone(slots.mark, slots.number),
        Keyword::Return => Statement::Return,
        Keyword::Resume => Statement::Resume(slots.perhaps_line),
        Keyword::Stop => Statement::Stop,
        Keyword::Sleep => Statement::Sleep(next_value(&mut slots.values)),
        _ => build_file(alloc, key, slots),
    }
}

/// Builds the statements on files and on fields of a record, and END.
fn build_file(alloc: Global, key: Keyword, slots: &mut Slots) -> Statement
    ensures { statement_of result ≡ file_built key (slots_of slots.old) }
{
    match key {
        Keyword::Open => opened(
            &mut slots.values,
            &mut slots.options,
            slots.purpose,
            slots.mark,
        ),
        Keyword::Close => Statement::Close(taken(alloc, &mut slots.channels)),
        Keyword::Get => Statement::Get {
            channel: next_value(&mut slots.values),
            record: next_option(&mut slots.options),
        },
        Keyword::Put => Statement::Put {
            channel: next_value(&mut slots.values),
            record: next_option(&mut slots.options),
        },
        Keyword::Unlock => Statement::Unlock(next_value(&mut slots.values)),
        Keyword::Field => Statement::Field {
            channel: next_value(&mut slots.values),
            parts: taken(alloc, &mut slots.fields),
        },
        Keyword::Lset => Statement::Lset {
            variable: slots.variable,
            value: next_value(&mut slots.values),
        },
        Keyword::Rset => Statement::Rset {
            variable: slots.variable,
            value: next_value(&mut slots.values),
        },
        Keyword::Kill => Statement::Kill(next_value(&mut slots.values)),
        Keyword::Name => Statement::Rename {
            old: next_value(&mut slots.values),
            new: next_value(&mut slots.values),
        },
        _ => Statement::End,
    }
}

/// Builds a jump, which may be written as two words, GO TO or GO SUB.
fn gone(to: bool, line: u16) -> Statement
    ensures { statement_of result ≡ gone to line }
{
    if to {
        Statement::Goto { apart: true, line }
    } else {
        Statement::Gosub { apart: true, line }
    }
}

/// Builds OPEN from what was read after it.
// Not from all slots: five calls over that many fields are slow to prove.
fn opened(
    values: &mut Vec<Expr>,
    options: &mut Vec<Option<Expr>>,
    purpose: OpenFor,
    hash: bool,
) -> Statement
    ensures { statement_of result ≡ opened_of (map tree_of values.old.items)
        (map (option_map tree_of) options.old.items) purpose hash }
{
    let file = next_value(values);
    let channel = next_value(values);
    Statement::Open {
        file,
        purpose,
        hash,
        channel,
        record_size: next_option(options),
        cluster_size: next_option(options),
        mode: next_option(options),
    }
}

/// Reads the table entry of a word, and returns its statement.
#[tactic(auto, using(crate::proofs::RowSteps::making))]
fn stated(
    alloc: Global,
    words: &Words<'_>,
    from: usize,
    key: Keyword,
    pieces: &[Piece],
    levels: usize,
) -> Result<Read<Statement>, Failure>
    requires { from ≤ length words.now }
    ensures { States levels words.now from (statement_form key pieces.now) result }
{
    let at = take_key(words, from, key)?;
    let Read {
        value: mut slots,
        end,
    } = row(alloc, words, at, pieces, levels)?;
    let value = build(alloc, key, &mut slots);
    Ok(Read { value, end })
}

/// Reads the statement of a word that has a table entry.
#[tactic(auto, using(crate::proofs::RowSteps::rows))]
pub fn by_row(
    alloc: Global,
    words: &Words<'_>,
    from: usize,
    key: Keyword,
    pieces: &[Piece],
    levels: usize,
) -> Result<Read<Statement>, Failure>
    requires within { from ≤ length words.now }
    requires row { row_of key ≡ Some pieces.now }
    ensures { StatesAs levels words.now from (key_sentence key) result }
{
    stated(alloc, words, from, key, pieces, levels)
}
