//! Statements as trees. Each variant is a production of the grammar, with its fields in the order
//! of the source. A `bool` field says whether an optional word or sign was written that does not
//! change the meaning.

use crate::expressions::Expr;
use crate::names::Name;
use crate::parts::{
    ChainLine, CloseChannel, FieldPart, FileShape, MatrixValue, Modifier, OpenFor, PrintChannel,
    PrintItem, Printed, Prompt, Separator, Shape, Target, UsingItem,
};
use basic_values::{Series, Text};

/// What an IF runs: the line with this number, or a statement.
#[cycle(statements)]
pub enum Clause {
    Line(u16),
    Statement(Box<Statement>),
}

// By hand, for the reason given at that of an expression.
impl Drop for Clause {
    #[cycle(statements_dropped)]
    fn drop(self) {
        match self {
            Self::Line(_) | Self::Statement(_) => (),
        }
    }
}

/// A statement.
#[cycle(statements)]
pub enum Statement {
    /// IF .. THEN, with an optional ELSE.
    IfThen {
        condition: Expr,
        clause: Clause,
        otherwise: Option<Clause>,
    },
    /// IF .. GOTO, with an optional ELSE.
    IfGoto {
        condition: Expr,
        line: u16,
        otherwise: Option<Clause>,
    },
    /// A statement and a modifier after it. Of several modifiers, the rightmost is outermost.
    Modified {
        statement: Box<Statement>,
        modifier: Modifier,
    },
    For {
        variable: Name,
        from: Expr,
        to: Expr,
        step: Option<Expr>,
    },
    Next(Name),
    FnEnd,
    /// The items, as they are written between the commas.
    Data(Series<Text>),
    Dim(Series<Shape>),
    /// DIM of arrays in the file of a channel.
    DimFile {
        channel: u16,
        shapes: Series<FileShape>,
    },
    /// DEF; a function of one line has its value here.
    Def {
        function: Name,
        parameters: Series<Name>,
        value: Option<Expr>,
    },
    /// An assignment, with or without the word LET.
    Let {
        word: bool,
        targets: Series<Target>,
        value: Expr,
    },
    /// The assignment of a function's result, in its body.
    Result {
        function: Name,
        value: Expr,
    },
    Print {
        channel: Option<PrintChannel>,
        items: Series<PrintItem>,
        last: Option<Printed>,
    },
    /// PRINT USING: the format, and at least one value.
    PrintUsing {
        channel: Option<Expr>,
        format: Expr,
        values: Series<UsingItem>,
        last: Option<Expr>,
    },
    Input {
        channel: Option<Expr>,
        prompt: Option<Prompt>,
        targets: Series<Target>,
    },
    InputLine {
        channel: Option<Expr>,
        variable: Name,
    },
    Read(Series<Target>),
    Restore,
    /// GOTO, or GO TO in two words.
    Goto {
        apart: bool,
        line: u16,
    },
    /// GOSUB, or GO SUB in two words.
    Gosub {
        apart: bool,
        line: u16,
    },
    Return,
    OnGoto {
        selector: Expr,
        lines: Series<u16>,
    },
    OnGosub {
        selector: Expr,
        lines: Series<u16>,
    },
    OnErrorGoto(Option<u16>),
    Resume(Option<u16>),
    Stop,
    End,
    Chain {
        program: Expr,
        line: Option<ChainLine>,
    },
    Sleep(Expr),
    Open {
        file: Expr,
        purpose: OpenFor,
        hash: bool,
        channel: Expr,
        record_size: Option<Expr>,
        cluster_size: Option<Expr>,
        mode: Option<Expr>,
    },
    Close(Series<CloseChannel>),
    Get {
        channel: Expr,
        record: Option<Expr>,
    },
    Put {
        channel: Expr,
        record: Option<Expr>,
    },
    Unlock(Expr),
    Field {
        channel: Expr,
        parts: Series<FieldPart>,
    },
    Lset {
        variable: Name,
        value: Expr,
    },
    Rset {
        variable: Name,
        value: Expr,
    },
    Kill(Expr),
    /// NAME .. AS.
    Rename {
        old: Expr,
        new: Expr,
    },
    /// MAT READ, of number arrays.
    MatRead(Series<Name>),
    /// MAT PRINT.
    MatPrint {
        matrix: Name,
        separator: Option<Separator>,
    },
    /// MAT .. = .., an assignment of a whole array.
    MatLet {
        target: Name,
        value: MatrixValue,
    },
}

impl Drop for Statement {
    #[cycle(statements_dropped)]
    fn drop(self) {
        match self {
            Self::IfThen {
                condition: _,
                clause: _,
                otherwise: _,
            }
            | Self::IfGoto {
                condition: _,
                line: _,
                otherwise: _,
            }
            | Self::Modified {
                statement: _,
                modifier: _,
            }
            | Self::For {
                variable: _,
                from: _,
                to: _,
                step: _,
            }
            | Self::Next(_)
            | Self::FnEnd
            | Self::Data(_)
            | Self::Dim(_)
            | Self::DimFile {
                channel: _,
                shapes: _,
            }
            | Self::Def {
                function: _,
                parameters: _,
                value: _,
            }
            | Self::Let {
                word: _,
                targets: _,
                value: _,
            }
            | Self::Result {
                function: _,
                value: _,
            }
            | Self::Print {
                channel: _,
                items: _,
                last: _,
            }
            | Self::PrintUsing {
                channel: _,
                format: _,
                values: _,
                last: _,
            }
            | Self::Input {
                channel: _,
                prompt: _,
                targets: _,
            }
            | Self::InputLine {
                channel: _,
                variable: _,
            }
            | Self::Read(_)
            | Self::Restore
            | Self::Goto { apart: _, line: _ }
            | Self::Gosub { apart: _, line: _ }
            | Self::Return
            | Self::OnGoto {
                selector: _,
                lines: _,
            }
            | Self::OnGosub {
                selector: _,
                lines: _,
            }
            | Self::OnErrorGoto(_)
            | Self::Resume(_)
            | Self::Stop
            | Self::End
            | Self::Chain {
                program: _,
                line: _,
            }
            | Self::Sleep(_)
            | Self::Open {
                file: _,
                purpose: _,
                hash: _,
                channel: _,
                record_size: _,
                cluster_size: _,
                mode: _,
            }
            | Self::Close(_)
            | Self::Get {
                channel: _,
                record: _,
            }
            | Self::Put {
                channel: _,
                record: _,
            }
            | Self::Unlock(_)
            | Self::Field {
                channel: _,
                parts: _,
            }
            | Self::Lset {
                variable: _,
                value: _,
            }
            | Self::Rset {
                variable: _,
                value: _,
            }
            | Self::Kill(_)
            | Self::Rename { old: _, new: _ }
            | Self::MatRead(_)
            | Self::MatPrint {
                matrix: _,
                separator: _,
            }
            | Self::MatLet {
                target: _,
                value: _,
            } => (),
        }
    }
}
