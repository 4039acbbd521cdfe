//! Reads the parts of statements at a place of a line's words: words and signs, expressions, names,
//! literals, targets, items of DATA and ranges.
//!
//! The expressions are those of `basic_expr`. Each contract is about the stack machine of
//! `grammar_machine`. Whatever is expected after the form of the part, the words up to the end lead
//! from it to what is made of the value, or the machine stops at that word. `statement_lists` reads
//! lists of parts, and `statement_rows` reads whole statements.
#![tactic(auto)]

mod items;
mod literals;
mod names;
mod ranges;
mod read;
mod reading;
mod targets;

pub use items::all_items;
pub use literals::Literal;
pub use names::{fn_name, if_literal, if_quoted, literal, name};
pub use ranges::{LoopRange, range};
pub use read::Read;
pub use reading::{
    closing, expression, if_key, if_opening, if_sign, opening, opens_there, take_key, take_sign,
};
pub use targets::{target, target_text};
