//! Instructions that ask the monitor or wait for a key line.

ghost use Rattle.std.specs.Prelude.{◌≡◌, ℕ, [], true, drop};
ghost use Rattle.basic_tree.specs.declared.expressions.Function.TheVariants.{Sys};
ghost use Rattle.job_model.specs.Act.{◌then◌};
ghost use Rattle.job_model.specs.Follow.{Follows};
ghost use Rattle.job_model.specs.Play as play;
ghost use Rattle.polish_code.specs.Walk.{asks, item_act, operand_count, pushed, taken};
ghost use Rattle.program_model.specs.Functions.{applied};
ghost use Rattle.basic_eval.specs.Acting.{alone, is_ask, left_by, seen, told};

use crate::exits::Move;
use crate::stack::Stack;
use crate::state::Running;
use crate::variables::exit_at;
use basic_tree::Function;
use job_storage::text_at;
use monitor_calls::Port;
use polish_code::Item;
use program_model::{FileAct, Value};

impl Running {
    /// Executes an instruction that may ask the monitor or take a key line. The result is as that
    /// of `step`. Such an instruction does not depend on its setting.
    pub fn ask_item<P: Port>(&mut self, item: &Item, stack: &mut Stack<Value>, port: &mut P) -> Move
        requires { is_ask item.now ≡ true }
        ensures { (behind : ℕ) (clock : play.Clock)
            → Follows P.who P.log port.old port.new clock clock
            (item_act (alone []) behind item.now stack.old (seen self.old))
            (left_by (told self.new.exit stack.new result) (seen self.new)) }
    {
        match item {
            Item::Ask(act) => self.ask_monitor(act, stack, port),
            Item::LoadFileElement { array, count } => {
                self.load_file_element(array, *count as usize, stack, port)
            }
            Item::StoreFileElement { array, count } => {
                self.store_file_element(array, *count as usize, stack, port)
            }
            Item::WriteOn => self.write_last(stack, port),
            Item::WriteUsing { count, ends_line } => {
                self.write_using(*count, *ends_line, stack, port)
            }
            Item::LineOn => self.line_on(stack, port),
            Item::AskItems { prompt, count } => {
                self.ask_items(prompt, *count as usize, stack, port)
            }
            Item::AskLine => self.ask_line(stack, port),
            Item::Apply {
                function: Function::Sys,
                count,
            } => self.apply_sys(*count as usize, stack, port),
            _ => unreachable!(),
        }
    }

    /// Applies SYS to the first of the last `count` values.
    #[inline(never)]
    fn apply_sys<P: Port>(&mut self, count: usize, stack: &mut Stack<Value>, port: &mut P) -> Move
        ensures { (clock : play.Clock) → Follows P.who P.log port.old port.new clock clock
            (applied Sys (taken count stack.old) (seen self.old) then pushed (drop count stack.old))
            (left_by (told self.new.exit stack.new result) (seen self.new)) }
    {
        match self
            .storage
            .sys(self.alloc, port, text_at(0, stack.last(count)))
        {
            Ok(text) => {
                stack.drop_last(count);
                self.push(Value::Text(text), stack)
            }
            Err(stop) => self.go_out(exit_at(&stop)),
        }
    }

    /// Does what a statement on files does, by the values of its operands, which it takes off the
    /// stack.
    #[inline(never)]
    fn ask_monitor<P: Port>(
        &mut self,
        act: &FileAct,
        stack: &mut Stack<Value>,
        port: &mut P,
    ) -> Move
        ensures { (clock : play.Clock) → Follows P.who P.log port.old port.new clock clock
            (asks act.now stack.old (seen self.old))
            (left_by (told self.new.exit stack.new result) (seen self.new)) }
    {
        let count = operand_count(act);
        match self.storage.act(self.alloc, port, act, stack.last(count)) {
            Ok(()) => {
                stack.drop_last(count);
                Move::Pass(0)
            }
            Err(stop) => self.go_out(exit_at(&stop)),
        }
    }
}

/// Returns how many operands a statement on files has.
fn operand_count(act: &FileAct) -> usize
    ensures { result ≡ operand_count act.now }
{
    match act {
        FileAct::Open(_) => 5,
        FileAct::ShutAll => 0,
        FileAct::Get | FileAct::Put | FileAct::Rename => 2,
        FileAct::Field(names) => names.as_slice().len() + 1,
        FileAct::Close | FileAct::Unlock | FileAct::Kill | FileAct::Sleep => 1,
    }
}
