//! The language: its tokens, its syntax trees, and in `specs/` the grammar, which says which bytes
//! are which tokens, words and trees. The crate has only data and definitions; the scanner and the
//! parsers are in crates above it.
//!
//! `laws` has theorems about bytes and tokens (`tokens_are_slices`, `longest_is_taken`,
//! `blanks_move_tokens`, `blanks_separate_tokens`), and that trees are spelled by bytes
//! (`trees_are_spelled`). That the grammar is unambiguous is proved in `grammar_machine`, by a
//! stack machine.
#![tactic(auto)]

mod expressions;
mod kinds;
pub mod laws;
mod names;
mod parts;
mod programs;
mod statements;
mod tokens;

pub use basic_values::Series;
pub use expressions::{Expr, Function, Operator, Relation};
pub use kinds::Want;
pub use names::Name;
pub use parts::{
    ChainLine, CloseChannel, FieldPart, FileShape, MatrixValue, Modifier, OpenFor, PrintChannel,
    PrintItem, Printed, Prompt, Separator, Shape, Target, UsingItem,
};
pub use programs::{Line, Program};
pub use statements::{Clause, Statement};
pub use tokens::{Cause, Front, Keyword, Refusal, Sign, TokenKind};
