//! Lines and programs.

use crate::statements::Statement;
use std::collections::BTreeMap;

/// A line: its statements in order. Between two separators there may be no statement.
#[derive(Drop)]
pub struct Line {
    pub statements: Vec<Statement>,
}

/// A program: its lines by their numbers, from 1 to 32767.
#[derive(Drop)]
pub struct Program {
    pub lines: BTreeMap<u16, Line>,
}
