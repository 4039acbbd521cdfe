//! The parts of statements: targets, shapes, items of PRINT, values of MAT, modifiers.

use crate::expressions::Expr;
use crate::names::Name;
use basic_values::Text;

/// A variable or an array element to which a value is assigned.
#[derive(Drop)]
pub enum Target {
    Variable(Name),
    Element {
        name: Name,
        first: Expr,
        second: Option<Expr>,
    },
}

/// An array of DIM, and its bounds.
#[derive(Clone, Copy, PartialEq, Eq)]
pub struct Shape {
    pub name: Name,
    pub first: u16,
    pub second: Option<u16>,
}

/// An array of `DIM #`, and its bounds. A string array may have an element size in bytes.
#[derive(Clone, Copy, PartialEq, Eq)]
pub struct FileShape {
    pub shape: Shape,
    pub size: Option<u16>,
}

/// The channel of PRINT, and whether a comma follows it. The comma is needed before items, and
/// allowed without them.
#[derive(Drop)]
pub struct PrintChannel {
    pub number: Expr,
    pub comma: bool,
}

/// An item of PRINT: a value, or `TAB` of a column.
#[derive(Drop)]
pub enum Printed {
    Value(Expr),
    Tab(Expr),
}

/// The separator after an item of PRINT, or after the prompt of INPUT.
#[derive(Clone, Copy, PartialEq, Eq)]
pub enum Separator {
    Comma,
    Semicolon,
}

/// An item of PRINT and the separator after it.
#[derive(Drop)]
pub struct PrintItem {
    pub printed: Printed,
    pub separator: Separator,
}

/// A value of PRINT USING and the separator after it.
#[derive(Drop)]
pub struct UsingItem {
    pub value: Expr,
    pub separator: Separator,
}

/// The value that MAT stores in its array: a constant, or computed from number arrays by their
/// names.
#[derive(Drop)]
pub enum MatrixValue {
    /// ZER: 0 everywhere.
    Zero,
    /// CON: 1 everywhere.
    One,
    /// IDN: 1 if both subscripts are equal, else 0.
    Identity,
    Copy(Name),
    Sum(Name, Name),
    Difference(Name, Name),
    Product(Name, Name),
    /// A number in parentheses times an array.
    Scaled { factor: Expr, matrix: Name },
    /// TRN: the array with its subscripts exchanged.
    Transposed(Name),
}

/// The string that INPUT writes first, and the separator after it.
#[derive(Drop)]
pub struct Prompt {
    pub text: Text,
    pub separator: Separator,
}

/// The line at which CHAIN starts the program, with or without the word LINE before it.
#[derive(Drop)]
pub struct ChainLine {
    pub word: bool,
    pub number: Expr,
}

/// How OPEN opens its file.
#[derive(Clone, Copy, PartialEq, Eq)]
pub enum OpenFor {
    Input,
    Output,
    Either,
}

/// A channel of CLOSE, with or without `#` before it.
#[derive(Drop)]
pub struct CloseChannel {
    pub hash: bool,
    pub number: Expr,
}

/// A part of FIELD: its width in bytes, and the variable for it.
#[derive(Drop)]
pub struct FieldPart {
    pub width: Expr,
    pub name: Name,
}

/// A modifier: it follows a statement, and says whether or how often the statement runs.
#[derive(Drop)]
pub enum Modifier {
    If(Expr),
    Unless(Expr),
    While(Expr),
    Until(Expr),
    For {
        variable: Name,
        from: Expr,
        to: Expr,
        step: Option<Expr>,
    },
}
