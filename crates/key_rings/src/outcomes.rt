//! What typing a line does.

/// What became of a line.
#[derive(Clone, Copy, Debug, PartialEq, Eq)]
pub enum Outcome {
    /// It is the terminal's next line.
    InOrder,
    /// Too many bytes would wait, so that the terminal was hung up in its place.
    HungUp,
    /// The terminal was hung up before, and nothing happened.
    WasOver,
}
