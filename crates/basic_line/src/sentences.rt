//! Which statement begins with a word.

ghost use Rattle.std.specs.Prelude.{◌≡◌, ◌≤◌, length, MatchOption};
ghost use Rattle.basic_expr.specs.Views.{as_word};
ghost use Rattle.grammar_machine.specs.MachineSentences.{key_sentence, sentence_of};
ghost use Rattle.basic_line.specs.Structure.{Nothing, SentenceAt, class_in, classes};

use basic_expr::{Word, Words};
use basic_tree::Keyword;

/// Where a statement is allowed.
#[derive(Clone, Copy, PartialEq, Eq)]
pub enum Class {
    /// An IF: also in clauses, but without modifiers.
    Choice,
    /// A statement that is allowed in no clause and takes no modifier.
    Head,
    /// Any other.
    Simple,
}

/// Returns the class of the statement that begins with this keyword, if there is one.
fn key_class(key: Keyword) -> Option<Class>
    ensures { classes result ≡ class_in (key_sentence key) }
{
    match key {
        Keyword::If => Some(Class::Choice),
        Keyword::For
        | Keyword::Next
        | Keyword::FnEnd
        | Keyword::Data
        | Keyword::Dim
        | Keyword::Def => Some(Class::Head),
        Keyword::Let
        | Keyword::Print
        | Keyword::Input
        | Keyword::Read
        | Keyword::Restore
        | Keyword::Goto
        | Keyword::Gosub
        | Keyword::Go
        | Keyword::Return
        | Keyword::On
        | Keyword::Resume
        | Keyword::Stop
        | Keyword::End
        | Keyword::Chain
        | Keyword::Sleep
        | Keyword::Open
        | Keyword::Close
        | Keyword::Get
        | Keyword::Put
        | Keyword::Unlock
        | Keyword::Field
        | Keyword::Lset
        | Keyword::Rset
        | Keyword::Kill
        | Keyword::Name
        | Keyword::Mat => Some(Class::Simple),
        _ => None,
    }
}

/// Returns the class of the statement that begins with this word, if there is one.
fn class_of(word: Word<'_>) -> Option<Class>
    ensures { classes result ≡ class_in (sentence_of (as_word word.entry)) }
{
    match word {
        Word::Key(key) => key_class(key),
        Word::Named(_) | Word::FnNamed(_) => Some(Class::Simple),
        Word::Punctuation(_) | Word::Number(_) | Word::Quotation(_) | Word::Item(_) => None,
    }
}

/// Returns the class of the statement that begins at a place, if there is one.
#[tactic(auto, using(crate::proofs::SentencePlaces::sentences_at))]
pub(crate) fn class_at(words: &Words<'_>, from: usize) -> Option<Class>
    requires { from ≤ length words.now }
    ensures { MatchOption result (Nothing words.now from) (λ c. SentenceAt words.now from c) }
{
    match words.peek(from) {
        None => None,
        Some(word) => class_of(word),
    }
}
