//! CHAIN.

ghost use Rattle.std.specs.Prelude.{◌≡◌, List, drop};
ghost use Rattle.polish_code.specs.Walk.{top};
ghost use Rattle.program_model.specs.declared.values.Value.{Value};
ghost use Rattle.program_model.specs.Chaining.{chained, line_wanted};
ghost use Rattle.program_model.specs.Job.{text};
ghost use Rattle.basic_eval.specs.Acting.{Acts, seen, told};

use crate::exits::{Exit, Move};
use crate::stack::Stack;
use crate::state::Running;
use crate::values::{take_number, take_top};
use basic_values::{Int, Text, Trouble};
use program_model::{Destination, Value};
use std::alloc::Global;

impl Running {
    /// Leaves the program for the one whose name is below the number of a line on the stack. The
    /// manual's CHAIN.
    #[inline(never)]
    pub(crate) fn chain(&mut self, stack: &mut Stack<Value>) -> Move
        ensures { (left : List Value) → Acts
            (chained (top (drop 1 stack.old)) (top stack.old) (seen self.old))
            (seen self.new) (told self.new.exit left result) }
    {
        let line = line_wanted(take_number(stack));
        let name = text_of(self.alloc, take_top(stack));
        self.destination = Destination { name, line };
        self.go_out(Trouble::Refused(Exit::Chained))
    }
}

/// Returns the string of a value, which is empty for a number.
fn text_of(alloc: Global, value: Value) -> Text
    ensures { result ≡ text value }
{
    match value {
        Value::Number(_) => Text::empty(alloc),
        Value::Text(text) => text,
    }
}

/// Returns the line that a number means, if it is above 0.
fn line_wanted(number: Int) -> Option<u16>
    ensures { result ≡ line_wanted number }
{
    let number = number.value();
    if number < 1 {
        return None;
    }
    Some(number.unsigned_abs())
}
