//! The scanner: from the bytes of a line to its tokens.
//!
//! `scan` promises exactly the tokens that `basic_tree` defines, or the first place that is
//! rejected. It takes no memory: the tokens are in an `ArrayVec`, in the returned value itself.
#![tactic(auto)]

mod front;
mod scanner;
mod words;

pub use front::literal_value;
pub use scanner::{Token, Tokens, scan};
pub use words::{keyword_of, sign_of};
