//! The tables of the grammar: kinds, operators, and functions with their arguments.

ghost use Rattle.std.specs.Prelude.{◌≡◌};
ghost use Rattle.basic_tree.specs.GrammarTables.{joins_texts, arguments_of};
ghost use Rattle.grammar_machine.specs.GrammarWords.{sign_operator, key_operator, sign_relation};
ghost use Rattle.grammar_machine.specs.GrammarWords.{function_of};
ghost use Rattle.grammar_machine.specs.MachineStarts.{takes, side};
ghost use Rattle.basic_expr.specs.ParsedSymbols.{takes_relations};
ghost use Rattle.basic_tree.specs.SpellingExpressions.{want_of};

use basic_tree::{Function, Keyword, Operator, Relation, Sign, Want};

/// Returns whether a string, or else a number, is allowed if this kind is expected.
pub fn takes(want: Want, text: bool) -> bool
    ensures { result ≡ takes want text }
{
    match want {
        Want::Number => !text,
        Want::Text => text,
        Want::Either => true,
    }
}

/// Returns the kind that a string, or else a number, has.
pub(crate) fn want_of(text: bool) -> Want
    ensures { result ≡ want_of text }
{
    if text { Want::Text } else { Want::Number }
}

/// Returns the kind that a relation's left side must have.
pub(crate) fn side(want: Want) -> Want
    ensures { result ≡ side want }
{
    match want {
        Want::Text => Want::Text,
        Want::Number | Want::Either => Want::Either,
    }
}

/// Returns whether relations are allowed if this kind is expected: a relation gives a number.
pub(crate) fn takes_relations(want: Want) -> bool
    ensures { result ≡ takes_relations want }
{
    match want {
        Want::Text => false,
        Want::Number | Want::Either => true,
    }
}

/// Returns whether an operator is allowed between two strings.
pub(crate) fn joins_texts(operator: Operator) -> bool
    ensures { result ≡ joins_texts operator }
{
    matches!(operator, Operator::Plus)
}

pub(crate) fn sign_operator(sign: Sign) -> Option<Operator>
    ensures { result ≡ sign_operator sign }
{
    match sign {
        Sign::Caret => Some(Operator::Power),
        Sign::Star => Some(Operator::Times),
        Sign::Slash => Some(Operator::Divided),
        Sign::Plus => Some(Operator::Plus),
        Sign::Minus => Some(Operator::Minus),
        _ => None,
    }
}

pub(crate) fn key_operator(key: Keyword) -> Option<Operator>
    ensures { result ≡ key_operator key }
{
    match key {
        Keyword::And => Some(Operator::And),
        Keyword::Or => Some(Operator::Or),
        Keyword::Xor => Some(Operator::Xor),
        Keyword::Imp => Some(Operator::Imp),
        Keyword::Eqv => Some(Operator::Eqv),
        _ => None,
    }
}

pub(crate) fn sign_relation(sign: Sign) -> Option<Relation>
    ensures { result ≡ sign_relation sign }
{
    match sign {
        Sign::Equal => Some(Relation::Equal),
        Sign::Same => Some(Relation::Same),
        Sign::Less => Some(Relation::Less),
        Sign::Greater => Some(Relation::Greater),
        Sign::LessOrEqual => Some(Relation::LessOrEqual),
        Sign::GreaterOrEqual => Some(Relation::GreaterOrEqual),
        Sign::Different => Some(Relation::Different),
        _ => None,
    }
}

pub(crate) fn function_of(key: Keyword) -> Option<Function>
    ensures { result ≡ function_of key }
{
    match key {
        Keyword::Len => Some(Function::Len),
        Keyword::Ascii => Some(Function::Ascii),
        Keyword::Left => Some(Function::Left),
        Keyword::Right => Some(Function::Right),
        Keyword::Mid => Some(Function::Mid),
        Keyword::Instr => Some(Function::Instr),
        Keyword::Chr => Some(Function::Chr),
        Keyword::Space => Some(Function::Space),
        Keyword::StringOf => Some(Function::StringOf),
        Keyword::Num1 => Some(Function::Num1),
        Keyword::Num => Some(Function::Num),
        Keyword::Val => Some(Function::Val),
        Keyword::CvtToText => Some(Function::CvtToText),
        Keyword::CvtToNumber => Some(Function::CvtToNumber),
        Keyword::Swap => Some(Function::Swap),
        Keyword::Abs => Some(Function::Abs),
        Keyword::Sgn => Some(Function::Sgn),
        Keyword::Xlate => Some(Function::Xlate),
        Keyword::Pos => Some(Function::Pos),
        Keyword::Err => Some(Function::Err),
        Keyword::Erl => Some(Function::Erl),
        Keyword::Recount => Some(Function::Recount),
        Keyword::Sys => Some(Function::Sys),
        _ => None,
    }
}

/// Returns the kinds of a function's arguments.
pub(crate) fn arguments_of(function: Function) -> &'static [Want]
    ensures { result.now ≡ arguments_of function }
{
    match function {
        Function::Err | Function::Erl | Function::Recount => &[],
        Function::Len | Function::Ascii | Function::Val | Function::CvtToNumber | Function::Sys =>
            &[Want::Text],
        Function::Chr
        | Function::Space
        | Function::Num1
        | Function::Num
        | Function::CvtToText
        | Function::Swap
        | Function::Abs
        | Function::Sgn
        | Function::Pos => &[Want::Number],
        Function::Left | Function::Right => &[Want::Text, Want::Number],
        Function::Mid => &[Want::Text, Want::Number, Want::Number],
        Function::Instr => &[Want::Number, Want::Text, Want::Text],
        Function::StringOf => &[Want::Number, Want::Number],
        Function::Xlate => &[Want::Text, Want::Text],
    }
}
