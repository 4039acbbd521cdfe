//! The names of variables, arrays and functions.

/// A capital letter and perhaps a digit, as bytes; of a number (`%`) or of a string (`$`).
#[derive(Clone, Copy, Debug, PartialEq, Eq, PartialOrd, Ord)]
pub struct Name {
    pub letter: u8,
    pub digit: Option<u8>,
    pub text: bool,
}
