//! Why bytes spell no deck.

/// Why a line is rejected. If several causes apply, the first of this order is reported.
#[derive(Clone, Copy, Debug, PartialEq, Eq)]
pub enum DeckCause {
    /// The input ends before the LF of the line, or after a whole line without END.
    Cut,
    /// The first line is not that of version 1, 2 or 3.
    Version,
    /// The line has none of the forms that are allowed there.
    Shape,
    /// A number is out of its range, or the length of a name, a password, an extension, a key line
    /// or a line of a block.
    Range,
    /// The account, the file or the terminal was given before.
    Double,
    /// The account of the file was not given.
    Owner,
    /// There are already as many as there may be, the disk or the quota of the account has no space
    /// for the file, or the content does not fit in the blocks of its file.
    Space,
}

/// A rejected deck: the first line that no deck can have there, counted from 1, and why.
#[derive(Clone, Copy, Debug, PartialEq, Eq)]
pub struct DeckFault {
    pub line: u32,
    pub cause: DeckCause,
}
