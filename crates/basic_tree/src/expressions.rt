//! Expressions as trees. Each variant is a production of the grammar, with its fields in the order
//! of the source.

ghost use Rattle.std.specs.Prelude.{◌≡◌, false, MatchOption};
ghost use Rattle.basic_tree.specs.SpellingPieces.{is_target};
ghost use Rattle.basic_tree.specs.TreeViews.{tree_of, target_of};

use crate::names::Name;
use crate::parts::Target;
use basic_values::Text;

/// The operators between two expressions, except the relations.
#[derive(Clone, Copy, Debug, PartialEq, Eq)]
pub enum Operator {
    /// `^` or `**`.
    Power,
    Times,
    Divided,
    Plus,
    Minus,
    And,
    Or,
    Xor,
    Imp,
    Eqv,
}

/// The relations between two numbers or two strings.
#[derive(Clone, Copy, Debug, PartialEq, Eq)]
pub enum Relation {
    Equal,
    /// `==`: two strings with the same bytes.
    Same,
    Less,
    Greater,
    LessOrEqual,
    GreaterOrEqual,
    Different,
}

/// The functions of the language.
#[derive(Clone, Copy, Debug, PartialEq, Eq)]
pub enum Function {
    Len,
    Ascii,
    Left,
    Right,
    Mid,
    Instr,
    Chr,
    Space,
    StringOf,
    Num1,
    Num,
    Val,
    CvtToText,
    CvtToNumber,
    Swap,
    Abs,
    Sgn,
    Xlate,
    Pos,
    Err,
    Erl,
    Recount,
    Sys,
}

/// An expression.
pub enum Expr {
    /// A number from 0 to 32767.
    Literal(u16),
    /// The bytes between two quotes.
    Quoted(Text),
    Variable(Name),
    /// An element of an array, with one or two subscripts.
    Element {
        name: Name,
        first: Box<Expr>,
        second: Option<Box<Expr>>,
    },
    /// A function of the language and its one to three arguments. ERR, ERL and RECOUNT have none.
    Function {
        function: Function,
        arguments: Vec<Expr>,
    },
    /// A function of the program: the name after FN, and the arguments, if any.
    Call {
        name: Name,
        arguments: Vec<Expr>,
    },
    Parenthesized(Box<Expr>),
    Negative(Box<Expr>),
    Positive(Box<Expr>),
    Not(Box<Expr>),
    Operation {
        left: Box<Expr>,
        operator: Operator,
        right: Box<Expr>,
    },
    Relation {
        left: Box<Expr>,
        relation: Relation,
        right: Box<Expr>,
    },
}

impl Expr {
    /// Returns the expression as a target, if it is a variable or an array element.
    pub fn into_target(self) -> Option<Target>
        ensures same_tree { MatchOption result (is_target (tree_of self) ≡ false)
            (λ t. target_of t ≡ tree_of self) }
    {
        match self {
            Self::Variable(name) => Some(Target::Variable(name)),
            Self::Element {
                name,
                first,
                second,
            } => Some(Target::Element {
                name,
                first: Box::into_inner(first),
                second: second.map(Box::into_inner),
            }),
            _ => None,
        }
    }
}

// By hand, so that it is proved here, and not again in each crate that drops an expression.
impl Drop for Expr {
    #[cycle(expression_dropped)]
    fn drop(self) {
        match self {
            Self::Literal(_)
            | Self::Quoted(_)
            | Self::Variable(_)
            | Self::Element {
                name: _,
                first: _,
                second: _,
            }
            | Self::Function {
                function: _,
                arguments: _,
            }
            | Self::Call {
                name: _,
                arguments: _,
            }
            | Self::Parenthesized(_)
            | Self::Negative(_)
            | Self::Positive(_)
            | Self::Not(_)
            | Self::Operation {
                left: _,
                operator: _,
                right: _,
            }
            | Self::Relation {
                left: _,
                relation: _,
                right: _,
            } => (),
        }
    }
}
