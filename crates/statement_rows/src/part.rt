//! What the pieces of statements give.

use basic_tree::{
    CloseChannel, Expr, FieldPart, FileShape, MatrixValue, Name, OpenFor, Prompt, Separator,
    Series, Shape, Target,
};
use basic_values::Text;
use statement_lists::Assigned;
use statement_operands::OpenOptions;
use statement_parts::LoopRange;

/// The channel of INPUT, or its prompt.
#[derive(Drop)]
pub struct Source {
    pub channel: Option<Expr>,
    pub prompt: Option<Prompt>,
}

/// What one piece gives.
#[derive(Drop)]
pub enum Part {
    Mark(bool),
    Value(Expr),
    Perhaps(Option<Expr>),
    Variable(Name),
    Number(u16),
    PerhapsLine(Option<u16>),
    Purpose(OpenFor),
    OpenOptions(OpenOptions),
    Source(Source),
    PerhapsSeparator(Option<Separator>),
    Matrix(MatrixValue),
    Range(LoopRange),
    Assigned(Assigned),
    Targets(Series<Target>),
    Channels(Series<CloseChannel>),
    Fields(Series<FieldPart>),
    Lines(Series<u16>),
    Items(Series<Text>),
    Arrays(Series<Name>),
    Shapes(Series<Shape>),
    FileShapes(Series<FileShape>),
}
