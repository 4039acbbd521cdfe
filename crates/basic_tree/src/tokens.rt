//! Tokens: the words of a line, and the causes for which a line has none.

/// The keywords of the grammar and the names of the functions. Some have two spellings.
#[derive(Clone, Copy, PartialEq, Eq)]
pub enum Keyword {
    Abs,
    And,
    As,
    Ascii,
    Chain,
    Chr,
    Close,
    ClusterSize,
    Con,
    CvtToNumber,
    CvtToText,
    Data,
    Def,
    Dim,
    Else,
    End,
    Eqv,
    Erl,
    Err,
    Error,
    Field,
    File,
    FnEnd,
    For,
    Get,
    Go,
    Gosub,
    Goto,
    Idn,
    If,
    Imp,
    Input,
    Instr,
    Kill,
    Left,
    Len,
    Let,
    Line,
    Lset,
    Mat,
    Mid,
    Mode,
    Name,
    Next,
    Not,
    Num,
    Num1,
    On,
    Open,
    Or,
    Output,
    Pos,
    Print,
    Put,
    Read,
    Record,
    RecordSize,
    Recount,
    Rem,
    Restore,
    Resume,
    Return,
    Right,
    Rset,
    Sgn,
    Sleep,
    Space,
    Step,
    Stop,
    StringOf,
    Sub,
    Swap,
    Sys,
    Tab,
    Then,
    To,
    Trn,
    Unless,
    Unlock,
    Until,
    Using,
    Val,
    While,
    Xlate,
    Xor,
    Zer,
}

/// The signs of the grammar.
#[derive(Clone, Copy, PartialEq, Eq)]
pub enum Sign {
    Plus,
    Minus,
    Star,
    Slash,
    Caret,
    /// `**`, the other spelling of `^`.
    DoubleStar,
    Opening,
    Closing,
    Comma,
    Semicolon,
    Colon,
    Backslash,
    Hash,
    Equal,
    /// `==`: two strings with the same bytes.
    Same,
    Less,
    Greater,
    LessOrEqual,
    GreaterOrEqual,
    Different,
}

/// The kinds of tokens.
#[derive(Clone, Copy, Debug, PartialEq, Eq)]
pub enum TokenKind {
    Keyword,
    /// `FN`, a letter and perhaps a digit, and `%` or `$`.
    FnName,
    /// A letter and perhaps a digit, and `%` or `$`.
    Variable,
    /// Digits, and perhaps `%`.
    Literal,
    /// Bytes between two quotes, with the quotes.
    Quoted,
    /// The bytes between two commas after DATA.
    DataItem,
    Sign,
}

/// Why a line is rejected.
#[derive(Clone, Copy, Debug, PartialEq, Eq)]
pub enum Cause {
    /// A name without `%` or `$`.
    FloatingName,
    /// A number with a point or an exponent.
    FloatingLiteral,
    /// A number above 32767.
    NumberTooWide,
    /// A quote without a second one.
    OpenString,
    /// A byte that begins no token.
    StrayByte,
    /// A token that no line can have there.
    Syntax,
    /// A nesting depth above 64.
    TooDeep,
}

/// The first place that is rejected, and why. The scanner counts bytes, the parser tokens, both
/// from 0.
#[derive(Clone, Copy, Debug, PartialEq, Eq)]
pub struct Refusal {
    pub place: u16,
    pub cause: Cause,
}

/// What the rest of a line begins with.
#[derive(Clone, Copy, PartialEq, Eq)]
pub enum Front {
    /// A space or a tab.
    Blank,
    /// A comment, which takes the rest of the line.
    Comment,
    /// DATA, whose items are the rest of the line.
    Data,
    /// A token of this kind, with this many bytes.
    Token(TokenKind, usize),
    /// No token.
    Refused(Cause),
}
