//! The pieces of statements.

use basic_tree::{Keyword, Sign, Want};

/// What is allowed at a place of a statement.
#[derive(Clone, Copy, PartialEq, Eq)]
pub enum Piece {
    /// This word.
    Key(Keyword),
    /// This sign.
    Sign(Sign),
    /// One of two words. Gives whether it is the first.
    Either(Keyword, Keyword),
    /// This sign, or nothing. Gives whether it is there.
    Mark(Sign),
    /// An expression of this kind.
    Value(Want),
    /// A comma, this word and a number, or nothing.
    Option(Keyword),
    /// `#`, a channel and a comma, or nothing.
    PerhapsChannel,
    /// The name of a variable of this kind.
    Variable(Want),
    /// A line number.
    Line,
    /// A line number or 0, or nothing.
    PerhapsLine,
    /// A literal from 0 to 32767.
    Bound,
    /// FOR INPUT or FOR OUTPUT, or nothing.
    Purpose,
    /// The options of OPEN, as far as they are there.
    OpenOptions,
    /// A channel of INPUT, a prompt, or neither.
    Source,
    /// A comma or a semicolon, or nothing.
    PerhapsSeparator,
    /// What MAT stores in an array.
    Matrix,
    /// The variable of a loop and the values that it takes.
    Range,
    /// Targets of one kind, `=` and the value.
    Assigned,
    /// One or more variables and array elements.
    Targets,
    /// One or more channels, each with an optional `#`.
    Channels,
    /// One or more parts of a record.
    Fields,
    /// One or more line numbers.
    Lines,
    /// One or more items of DATA.
    Items,
    /// One or more names of number arrays.
    Arrays,
    /// One or more arrays with their bounds.
    Shapes,
    /// One or more arrays of a file.
    FileShapes,
}
