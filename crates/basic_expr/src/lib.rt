//! Parses expressions from the words of a line, by recursive descent.
//!
//! `parse_expr` promises, in terms of the grammar of `basic_tree`, the longest expression that the
//! tokens spell, or the token that is rejected. `expression_at` and `subscripts_at` promise the
//! same in terms of the grammar's stack machine, for the crates above. `Words` are the tokens as
//! the grammar sees them, and `MOST_LEVELS` is the largest nesting depth.
#![tactic(auto)]

mod expressions;
mod failures;
mod parsing;
mod precedence;
mod signs;
mod tables;
mod words;

pub use expressions::{expression_at, subscripts_at};
pub use failures::{Failure, Found};
pub use parsing::{MOST_LEVELS, parse_expr};
pub use signs::{begins_value, expect, next_is_key, next_is_sign};
pub use tables::takes;
pub use words::{Word, Words, text_of};
