//! Elements of arrays in files.

ghost use Rattle.std.specs.Prelude.{◌≡◌, drop, pos};
ghost use Rattle.job_model.specs.Act.{◌then◌};
ghost use Rattle.job_model.specs.Follow.{Follows, answered_by};
ghost use Rattle.job_model.specs.Play as play;
ghost use Rattle.polish_code.specs.Walk.{passed, pushed, taken, top};
ghost use Rattle.program_model.specs.declared.values.Value.TheVariants as value;
ghost use Rattle.program_model.specs.Elements.{read_act, write_act};
ghost use Rattle.program_model.specs.Storage.{in_storage, stores_by};
ghost use Rattle.basic_eval.specs.Acting.{left_by, seen, told};

use crate::exits::Move;
use crate::stack::Stack;
use crate::state::Running;
use crate::variables::exit_at;
use basic_values::{Int, Stop};
use monitor_calls::Port;
use program_model::Value;
use virtual_arrays::VirtualShape;

impl Running {
    /// Loads an element of an array in a file, by the last `count` values.
    #[inline(never)]
    pub(crate) fn load_file_element<P: Port>(
        &mut self,
        array: &VirtualShape,
        count: usize,
        stack: &mut Stack<Value>,
        port: &mut P,
    ) -> Move
        ensures { (clock : play.Clock) → Follows P.who P.log port.old port.new clock clock
            (stores_by (read_act array.now (taken count stack.old)) (seen self.old)
            then pushed (drop count stack.old))
            (left_by (told self.new.exit stack.new result) (seen self.new)) }
    {
        match self
            .storage
            .read_element(self.alloc, port, array, stack.last(count))
        {
            Ok(value) => {
                stack.drop_last(count);
                self.push(value, stack)
            }
            Err(stop) => self.go_out(exit_at(&stop)),
        }
    }

    /// Stores the value below the last `count`, which are the subscripts. It stays.
    #[inline(never)]
    pub(crate) fn store_file_element<P: Port>(
        &mut self,
        array: &VirtualShape,
        count: usize,
        stack: &mut Stack<Value>,
        port: &mut P,
    ) -> Move
        ensures { (clock : play.Clock) → Follows P.who P.log port.old port.new clock clock
            (stores_by (write_act array.now (taken count stack.old) (top (drop count stack.old)))
            (seen self.old) then passed (drop count stack.old))
            (left_by (told self.new.exit stack.new result) (seen self.new)) }
    {
        match self.write_below(array, count, stack, port) {
            Ok(()) => {
                stack.drop_last(count);
                Move::Pass(0)
            }
            Err(stop) => self.go_out(exit_at(&stop)),
        }
    }

    fn write_below<P: Port>(
        &mut self,
        array: &VirtualShape,
        count: usize,
        stack: &Stack<Value>,
        port: &mut P,
    ) -> Result<(), Stop>
        ensures act { (clock : play.Clock) → Follows P.who P.log port.old port.new clock clock
            (write_act array.now (taken count stack.now) (top (drop count stack.now))
            self.old.storage) (answered_by result self.new.storage) }
        ensures rest { seen self.new ≡ in_storage.with_part (seen self.old) self.new.storage }
    {
        let zero = Value::Number(Int::new(0));
        let value = value_below(count, stack, &zero);
        self.storage
            .write_element(self.alloc, port, array, stack.last(count), value)
    }
}

/// Returns the value below the last `count`, or `zero` if there is none.
fn value_below<'a>(count: usize, stack: &'a Stack<Value>, zero: &'a Value) -> &'a Value
    requires { zero.now ≡ value.Number (pos 0) }
    ensures { result.now ≡ top (drop count stack.entry.now) }
{
    match stack.below(count) {
        Some(value) => value,
        None => zero,
    }
}
