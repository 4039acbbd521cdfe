//! Which kind of value an expression must have, and which kind a function of the language gives.

ghost use Rattle.std.specs.Prelude.{◌≡◌};
ghost use Rattle.basic_tree.specs.GrammarTables.{gives_text};

use crate::expressions::Function;

/// Whether a number, a string or either is expected.
#[derive(Clone, Copy, PartialEq, Eq)]
pub enum Want {
    Number,
    Text,
    Either,
}

impl Function {
    /// Returns whether the function gives a string. If not, it gives a number.
    pub fn gives_text(self) -> bool
        ensures { result ≡ gives_text self }
    {
        matches!(
            self,
            Function::Left
                | Function::Right
                | Function::Mid
                | Function::Chr
                | Function::Space
                | Function::StringOf
                | Function::Num1
                | Function::Num
                | Function::CvtToText
                | Function::Xlate
                | Function::Sys
        )
    }
}
